// Worked examples of severity and of the notifiers.
#![tactic(auto)]

#[cfg(test)]
mod sampling;
