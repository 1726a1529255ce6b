ghost use Rattle.std.specs.Prelude.{◌≡◌};
ghost use Rattle.rates.specs.RungRule.{by_rungs, rung_cut, rung_current};
ghost use Rattle.rungs.specs.Rungs.{Rising};
ghost use Rattle.rates.specs.RungRuleLaws.{rungs_lawful};

use crate::rate_rule::{RateRule, may_cut, may_raise};
use crate::rates::{Rates, Stages};
use crate::standard::Standard;
use rungs::looking::{at_least, below, not_above};
use settings::accepted::Settings;

// The lowest rung, kbit/s.
pub const RUNG_FLOOR: u32 = 10_048;

// A rule for a shaper that can only be set to the rungs: the standard rule's rates, moved to rungs.
#[derive(Clone, Copy)]
pub struct RungRule {
    standard: Standard,
}

impl RungRule {
    pub fn new(settings: Settings) -> RungRule
        ensures answer { result.standard.settings ≡ settings }
        ensures law { Rising }
    {
        RungRule {
            standard: Standard::new(settings),
        }
    }

    // The lower of two rungs: the greatest below the rate, and the least that keeps what the standard rule leaves.
    fn cut_rung(&self, current: u32, value: u8) -> u32
        ensures answer { result ≡ rung_cut self.now.standard.settings.figures current value }
    {
        let kept = self.standard.reduced(current, value);
        below(current)
            .unwrap_or(current)
            .min(at_least(kept).unwrap_or(current))
    }
}

// The current rate for the standard rule's: the line rate where that is reached, else a rung, and never lower than before.
fn rung_current(line_rate: u32, current: u32, standard: u32) -> u32
    ensures answer { result ≡ rung_current line_rate current standard }
{
    if standard == line_rate {
        return line_rate;
    }
    not_above(standard).unwrap_or(current).max(current)
}

impl RateRule for RungRule {
    ghost meaning = { λ x. by_rungs x.standard.settings.figures };

    ghost lawful = { λ x. rungs_lawful x.standard.settings.figures x.standard.settings.gain_in };

    fn floor(&self) -> u32 {
        RUNG_FLOOR
    }

    fn cut(&self, line_rate: u32, current: u32, value: u8) -> u32 {
        if may_cut(RUNG_FLOOR, line_rate, current, value) && current > RUNG_FLOOR {
            self.cut_rung(current, value)
        } else {
            current
        }
    }

    fn raise(&self, line_rate: u32, rates: Rates, stages: Stages) -> Rates {
        match may_raise(RUNG_FLOOR, line_rate, rates) {
            Some(pair) => {
                let raised = self.standard.raised(line_rate, pair, stages);
                Rates {
                    current: rung_current(line_rate, pair.current, raised.current),
                    target: raised.target,
                }
            }
            None => rates,
        }
    }
}
