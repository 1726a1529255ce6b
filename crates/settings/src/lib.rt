// The eight settings of a line: accepted once, and within their ranges ever after.
//
// `figures`: the eight numbers as they are given. `accepted`: the numbers once accepted.
// `fault`: which of the eight was refused, and its number. `letter`: a letter that names nothing.
#![tactic(auto)]

pub mod accepted;
pub mod fault;
pub mod figures;
pub mod letter;
