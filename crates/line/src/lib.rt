// The line: the rate control of one uplink.
//
// `uplink`: the line, its opening, the five calls, and what can be read of it. `listing`: what is read.
#![tactic(auto)]

pub mod listing;
pub mod uplink;
