ghost use Rattle.std.specs.Prelude.{◌≡◌};
ghost use Rattle.rates.specs.Chosen.{chosen_rule};

use crate::chosen::{ChosenRule, RuleKind};
use crate::rate_rule::RateRule;
use crate::rates::{Rates, Stages};
use settings::accepted::Settings;

// What keeps a line's rates: a rate rule, and the settings.
// Contracts name the rule's meaning and the figures apart, as definitions take them: a model by these two would hide the rule.
#[derive(Clone, Copy)]
pub struct Regime<R> {
    pub rule: R,
    pub settings: Settings,
}

impl<R: RateRule> Regime<R> {
    // The current rate after a notice of `value`, at the line rate of the settings.
    pub fn cut(&self, current: u32, value: u8) -> u32
        ensures answer { result ≡ (R.RateRule.meaning self.now.rule).cut self.now.settings.figures.line_rate current value }
    {
        self.rule.cut(self.settings.line_rate(), current, value)
    }

    // Both rates once a stage has risen to `stages`, at the line rate of the settings.
    pub fn raise(&self, rates: Rates, stages: Stages) -> Rates
        ensures answer { result ≡ (R.RateRule.meaning self.now.rule).raise self.now.settings.figures.line_rate rates stages }
    {
        self.rule.raise(self.settings.line_rate(), rates, stages)
    }
}

impl Regime<ChosenRule> {
    // The settings, with the rule of a kind that is made from them.
    pub fn chosen(kind: RuleKind, settings: Settings) -> Regime<ChosenRule>
        ensures rule { result.rule ≡ chosen_rule kind settings }
        ensures settings { result.settings ≡ settings }
    {
        Regime {
            rule: ChosenRule::new(kind, settings),
            settings,
        }
    }
}
