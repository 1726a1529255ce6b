// The ring in use for two kinds of records, with no proof of their own.
//
// `frames`: a ring of frames. `notices`: a ring of notices.
#![tactic(auto)]

pub mod frames;
pub mod notices;
#[cfg(test)]
mod tests;
