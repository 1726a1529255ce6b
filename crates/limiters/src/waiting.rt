ghost use Rattle.std.specs.Prelude.{◌≡◌};
ghost use Rattle.limiters.specs.Bounds.{WaitingKeeps};
ghost use Rattle.limiters.specs.Step.{earned, expired};
ghost use Rattle.limiters.specs.declared.limiter.Limiter.TheVariants.{InService};
ghost use Rattle.limiters.specs.Wait.{timer_raised, micros, expiries, AddsUp};

use crate::limiter::{Limiter, Row};
use crate::stepping::timer_risen;
use rates::rate_rule::RateRule;
use rates::rates::Rates;
use rates::regime::Regime;

impl Row {
    // What the rule answers when the timer expires.
    fn timer_raised<R: RateRule>(self, regime: &Regime<R>) -> Rates
        ensures answer { result ≡ timer_raised (R.RateRule.meaning regime.now.rule) regime.now.settings.figures self }
    {
        regime.raise(self.rates, timer_risen(self.stages))
    }

    // The row after a jump to its next expiry, `micros` away.
    fn jumped<R: RateRule>(self, regime: &Regime<R>, micros: u32) -> Row
        ensures answer { result ≡ expired regime.now.settings.figures (timer_raised (R.RateRule.meaning regime.now.rule) regime.now.settings.figures self) (earned self micros) self }
    {
        let raised = self.timer_raised(regime);
        self.expired(&regime.settings, raised, self.earned(micros))
    }

    // Jumps from expiry to expiry, so that the work is by the expiries and not by the microseconds; how many there were.
    fn wait<R: RateRule>(&mut self, regime: &Regime<R>, wait: u32) -> u32
        ensures answer { result ≡ expiries (R.RateRule.meaning regime.now.rule) regime.now.settings.figures wait (InService self.old) }
        ensures after { InService self.new ≡ micros (R.RateRule.meaning regime.now.rule) regime.now.settings.figures wait (InService self.old) }
    {
        let mut left = wait;
        let mut expiries = 0;
        while left >= self.time_left.max(1) {
            let step = self.time_left.max(1);
            *self = self.jumped(regime, step);
            left -= step;
            expiries += 1;
        }
        // At 0 a credit above full stays as it is.
        if left > 0 {
            *self = self.passed(left);
        }
        expiries
    }
}

impl Limiter {
    // So many microseconds; how often the timer expired in them.
    pub fn wait<R: RateRule>(&mut self, regime: &Regime<R>, wait: u32) -> u32
        ensures answer { result ≡ expiries (R.RateRule.meaning regime.now.rule) regime.now.settings.figures wait self.old }
        ensures after { self.new ≡ micros (R.RateRule.meaning regime.now.rule) regime.now.settings.figures wait self.old }
        ensures law { AddsUp (R.RateRule.meaning regime.now.rule) regime.now.settings.figures self.old }
        ensures keeps { WaitingKeeps (R.RateRule.meaning regime.now.rule) regime.now.settings.figures wait }
    {
        match self {
            Limiter::Free => 0,
            Limiter::InService(row) => row.wait(regime, wait),
        }
    }
}
