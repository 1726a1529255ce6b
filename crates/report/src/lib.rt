// The text that `recovery` prints.
//
// `telling`: the report on a question, or its refusal.
#![tactic(auto)]

pub mod telling;
