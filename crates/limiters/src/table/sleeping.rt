ghost use Rattle.std.specs.Prelude.{◌≡◌, map, sum_by};
ghost use Rattle.limiters.specs.Single.{StaysSingle};
ghost use Rattle.limiters.specs.Wait.{micros, expiries};

use crate::table::Table;
use rates::rate_rule::RateRule;
use rates::regime::Regime;

impl Table {
    // So many microseconds for every limiter; how many expiries there were.
    pub fn wait<R: RateRule>(&mut self, regime: &Regime<R>, wait: u32) -> u64
        ensures answer { result ≡ sum_by (expiries (R.RateRule.meaning regime.now.rule) regime.now.settings.figures wait) self.old.slots }
        ensures slots { self.new.slots ≡ map (micros (R.RateRule.meaning regime.now.rule) regime.now.settings.figures wait) self.old.slots }
        ensures cursor { self.new.cursor ≡ self.old.cursor }
        ensures law { StaysSingle (R.RateRule.meaning regime.now.rule) regime.now.settings.figures }
    {
        let mut expiries = 0;
        for limiter in self.slots.iter_mut() {
            expiries += limiter.wait(regime, wait) as u64;
        }
        expiries
    }
}
