// Worked examples of the rung rule.
#![tactic(auto)]

#[cfg(test)]
mod rung_rates;
