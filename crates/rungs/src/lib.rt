// The rungs: the 640 rates of a shaper that can only be set to fixed rates.
//
// `table`: the rates. `looking`: the rung below a rate, not above it, or at least it.
#![tactic(auto)]

pub mod looking;
mod table;
