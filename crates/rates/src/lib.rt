// Rate rules: how a limiter's rates fall at a notice and rise at the end of a stage.
//
// `rates`: what a rule is asked about. `rate_rule`: what every rule is. `pair`: two rates in order.
// `standard`: the rule of the published algorithm. `rung_rule`: a rule whose rates are rungs.
// `chosen`: either rule, by a letter. `regime`: a rule with the settings of its line.
#![tactic(auto)]

pub mod chosen;
pub mod pair;
pub mod rate_rule;
pub mod rates;
pub mod regime;
pub mod rung_rule;
pub mod standard;
