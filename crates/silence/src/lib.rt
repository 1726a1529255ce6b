// A flow that stays silent after a notice, from the cut to its return to the line rate.
//
// `expiry`: the timer's expiries, one after another.
#![tactic(auto)]

pub mod expiry;
