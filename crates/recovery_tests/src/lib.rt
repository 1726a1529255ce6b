// What no contract says: worked examples, compared with what they should print.
#![tactic(auto)]

#[cfg(test)]
mod examples;
