// Limiters: what a flow's limiter does at a notice, a frame and a microsecond, and the table of 64.
//
// `limiter`: one limiter. `event`: what can come to it. `stepping`: what each does, in place.
// `acting`: a limiter under a rate rule. `waiting`: many microseconds, by jumps from expiry to expiry.
#![tactic(auto)]

pub mod acting;
pub mod event;
pub mod limiter;
pub mod stepping;
pub mod table;
pub mod waiting;
