ghost use Rattle.std.specs.Prelude.{◌≡◌, if◌then◌else◌, Some, None};
ghost use Rattle.rates.specs.Pair.{told};
ghost use Rattle.rates.specs.Rule.{Rule, Lawful, in_bounds, cuttable, raisable};

use crate::pair::RatePair;
use crate::rates::{Rates, Stages};
use settings::accepted::making::{FASTEST, SLOWEST};

// The largest value of a notice.
pub const LARGEST_VALUE: u8 = 63;

// Where targets end, kbit/s.
pub const LARGEST_TARGET: u32 = 40_000_000;

// How a limiter's rates fall and rise. Equal arguments are always answered equally.
pub trait RateRule {
    ghost meaning: { Self → Rule };

    // The rate that no cut goes below, kbit/s.
    fn floor(&self) -> u32
        ensures answer { result ≡ (meaning self.now).floor };

    // The current rate after a notice of `value`.
    fn cut(&self, line_rate: u32, current: u32, value: u8) -> u32
        ensures answer { result ≡ (meaning self.now).cut line_rate current value };

    // Both rates once a stage has risen to `stages`.
    fn raise(&self, line_rate: u32, rates: Rates, stages: Stages) -> Rates
        ensures answer { result ≡ (meaning self.now).raise line_rate rates stages };

    ghost lawful: { (x : Self) → Lawful (meaning x) };
}

// A rule that is lent is a rule, so that one rule can serve under several settings.
impl<R: RateRule> RateRule for &R {
    ghost meaning = { λ rule. R.RateRule.meaning rule.now };

    ghost lawful = { λ rule. R.RateRule.lawful rule.now };

    fn floor(&self) -> u32 {
        (**self).floor()
    }

    fn cut(&self, line_rate: u32, current: u32, value: u8) -> u32 {
        (**self).cut(line_rate, current, value)
    }

    fn raise(&self, line_rate: u32, rates: Rates, stages: Stages) -> Rates {
        (**self).raise(line_rate, rates, stages)
    }
}

// Floor, line rate and current rate come apart, here and below, as the trait's calls are given them.
fn in_bounds(floor: u32, line_rate: u32, current: u32) -> bool
    ensures answer { result ≡ in_bounds floor line_rate current }
{
    (SLOWEST..=FASTEST).contains(&line_rate) && (floor..=line_rate).contains(&current)
}

// Whether a rule cuts at all: other arguments are answered with the rate that was given.
pub(crate) fn may_cut(floor: u32, line_rate: u32, current: u32, value: u8) -> bool
    ensures answer { result ≡ cuttable floor line_rate current value }
{
    in_bounds(floor, line_rate, current) && (1..=LARGEST_VALUE).contains(&value)
}

// The rates as a pair where a rule raises them: others are answered as they were given.
pub(crate) fn may_raise(floor: u32, line_rate: u32, rates: Rates) -> Option<RatePair>
    ensures answer { told result ≡ (if raisable floor line_rate rates then Some rates else None) }
{
    RatePair::new(rates).filter(|pair| in_bounds(floor, line_rate, pair.current)
        && pair.target <= LARGEST_TARGET)
}
