// Worked examples of limiters.
#![tactic(auto)]

#[cfg(test)]
mod limits;
