// The believed model of a line: what it holds, what each call answers and leaves, and what holds over every run.
//
// `frame`, `notice`: what waits. `call`: the five calls, and what they answer. `fault`: why they refuse.
// The model itself stands in `specs/`.
#![tactic(auto)]

pub mod call;
pub mod fault;
pub mod frame;
pub mod notice;
