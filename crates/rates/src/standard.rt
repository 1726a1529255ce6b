ghost use Rattle.std.specs.Prelude.{◌≡◌, ◌≤◌};
ghost use Rattle.rates.specs.Pair.{rates_of};
ghost use Rattle.rates.specs.Standard.{standard, reduced, extra, next_target, raised_to};
ghost use Rattle.rates.specs.Published.{Published};
ghost use Rattle.rates.specs.StandardLaws.{standard_lawful};

use crate::pair::RatePair;
use crate::rate_rule::{LARGEST_TARGET, RateRule, may_cut, may_raise};
use crate::rates::{Rates, Stages};
use settings::accepted::Settings;

// The rate that the standard rule never cuts below, kbit/s.
pub const FLOOR: u32 = 10_000;

// The gain counts in parts of this, and a cut takes at most half of them.
const WHOLE: u64 = 1024;

const LARGEST_DECREASE: u32 = 512;

// While a stage is at most this, it only recovers towards the old target.
const RECOVERY: u8 = 5;

// A target more than this many times the current rate is out of reach at the first byte stage.
const FAR: u64 = 10;

// The rule of the published algorithm, with the gain and the steps of the settings.
#[derive(Clone, Copy)]
pub struct Standard {
    settings: Settings,
}

impl Standard {
    pub fn new(settings: Settings) -> Standard
        ensures answer { result.settings ≡ settings }
        ensures published { Published }
    {
        Standard { settings }
    }

    // What a notice of `value` leaves of a rate, before the floor is looked at.
    pub(crate) fn reduced(&self, current: u32, value: u8) -> u32
        ensures answer { result ≡ reduced self.now.settings.figures current value }
    {
        let decrease = (self.settings.gain() * value as u32).min(LARGEST_DECREASE) as u64;
        (current as u64 * (WHOLE - decrease) / WHOLE) as u32
    }

    // What a raise adds to the target.
    fn extra(&self, stages: Stages) -> u32
        ensures answer { result ≡ extra self.now.settings.figures stages }
    {
        let least = stages.byte.min(stages.timer);
        if least > RECOVERY {
            self.settings.step_b() * (least - RECOVERY) as u32
        } else if stages.byte > RECOVERY || stages.timer > RECOVERY {
            self.settings.step_a()
        } else {
            0
        }
    }

    fn next_target(&self, pair: RatePair, stages: Stages) -> u32
        ensures answer { result ≡ next_target self.now.settings.figures (rates_of pair) stages }
    {
        if stages.byte == 1 && pair.target as u64 > FAR * pair.current as u64 {
            pair.target / 8
        } else {
            (pair.target as u64 + self.extra(stages) as u64).min(LARGEST_TARGET as u64) as u32
        }
    }

    // Both rates after a raise of rates that may be raised.
    pub(crate) fn raised(&self, line_rate: u32, pair: RatePair, stages: Stages) -> RatePair
        requires { pair.target ≤ 40000000 }
        ensures answer { rates_of result ≡ raised_to self.now.settings.figures line_rate (rates_of pair) stages }
    {
        let target = self.next_target(pair, stages);
        let middle = (target as u64 + pair.current as u64) / 2;
        RatePair {
            current: middle.min(line_rate as u64) as u32,
            target,
        }
    }
}

impl RateRule for Standard {
    ghost meaning = { λ x. standard x.settings.figures };

    ghost lawful = { λ x. standard_lawful x.settings.figures x.settings.gain_in };

    fn floor(&self) -> u32 {
        FLOOR
    }

    fn cut(&self, line_rate: u32, current: u32, value: u8) -> u32 {
        if may_cut(FLOOR, line_rate, current, value) {
            self.reduced(current, value).max(FLOOR)
        } else {
            current
        }
    }

    fn raise(&self, line_rate: u32, rates: Rates, stages: Stages) -> Rates {
        match may_raise(FLOOR, line_rate, rates) {
            Some(pair) => self.raised(line_rate, pair, stages).into(),
            None => rates,
        }
    }
}
