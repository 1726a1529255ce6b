// A trace: what each of its lines is answered, and the text of every answer and refusal.
//
// `session`: the line that a trace opens, and what a command does to it. `reply`: what an accepted line is answered.
// `fault`: why a line is refused. `telling`: the text of both. `transcript`: one line of a trace, answered.
#![tactic(auto)]

pub mod fault;
pub mod reply;
pub mod session;
pub mod telling;
pub mod transcript;
