// A question to `recovery`: a line with the settings and a line with a record.
//
// `reading`: what the two lines say. `refusal`: why they are refused, in numbers and words.
#![tactic(auto)]

pub mod reading;
pub mod refusal;
