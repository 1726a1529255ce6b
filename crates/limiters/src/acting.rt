ghost use Rattle.std.specs.Prelude.{◌≡◌};
ghost use Rattle.limiters.specs.Act.{heard, sent, taken, may_pass};
ghost use Rattle.limiters.specs.Pass.{held_of};
ghost use Rattle.limiters.specs.Bounds.{HearingKeeps, SendingKeeps};

use crate::event::Event;
use crate::limiter::{Identity, Limiter};
use crate::stepping::{byte_risen, charge};
use rates::rate_rule::RateRule;
use rates::regime::Regime;
use settings::accepted::Settings;

impl Limiter {
    // Begins to serve, where it is free.
    pub fn take(&mut self, settings: &Settings, serves: Identity)
        ensures after { self.new ≡ taken settings.now.figures serves self.old }
    {
        self.step(settings, Event::Taken(serves));
    }

    // A notice of a value; one of 0 does nothing.
    pub fn hear<R: RateRule>(&mut self, regime: &Regime<R>, value: u8)
        ensures after { self.new ≡ heard (R.RateRule.meaning regime.now.rule) regime.now.settings.figures value self.old }
        ensures law { HearingKeeps (R.RateRule.meaning regime.now.rule) regime.now.settings.figures value }
    {
        if let Limiter::InService(row) = self {
            let cut = regime.cut(row.rates.current, value);
            self.step(&regime.settings, Event::Notice(value, cut));
        }
    }

    // An accepted frame: it is charged, or frees a limiter at the line rate.
    pub fn send<R: RateRule>(&mut self, regime: &Regime<R>, length: u32)
        ensures after { self.new ≡ sent (R.RateRule.meaning regime.now.rule) regime.now.settings.figures length self.old }
        ensures law { SendingKeeps (R.RateRule.meaning regime.now.rule) regime.now.settings.figures length }
    {
        if let Limiter::InService(row) = self {
            let raised = regime.raise(row.rates, byte_risen(row.stages));
            self.step(&regime.settings, Event::Frame(length, raised));
        }
    }

    // Whether a frame of a length may pass now.
    pub fn may_pass(&self, settings: &Settings, length: u32) -> bool
        ensures answer { result ≡ may_pass settings.now.figures length self.now }
    {
        match self {
            Limiter::Free => true,
            Limiter::InService(row) => row.rates.current >= settings.line_rate()
                || row.credit as u64 >= charge(length),
        }
    }

    // The value that is held; 0 where none is.
    pub fn held(&self) -> u8
        ensures answer { result ≡ held_of self.now }
    {
        match self {
            Limiter::Free => 0,
            Limiter::InService(row) => row.held,
        }
    }
}
