ghost use Rattle.std.specs.Prelude.{◌≡◌, ◌/◌, ◌≤◌, cond, nat_lt};
ghost use Rattle.limiters.specs.Step.{charge, risen, fresh, held_after, noticed, charged, earned, expired, passed, ticked, stepped};

use crate::event::Event;
use crate::limiter::{Identity, Limiter, Row};
use rates::rates::{Rates, Stages};
use settings::accepted::Settings;

// Full credit: one frame of the longest, 8,000 x 2,000 thousandths of a bit.
pub const FULL_CREDIT: u32 = 16_000_000;

// What a byte is charged, thousandths of a bit.
const CHARGE: u64 = 8_000;

// From this stage on a counter runs for half of its limit.
const HALF_STAGE: u8 = 5;

// A held value that starts again from 0.
const GREATEST_HELD: u8 = 63;

// What a frame is charged.
pub(crate) fn charge(length: u32) -> u64
    ensures answer { result ≡ charge length }
{
    CHARGE * length as u64
}

fn held_after(value: u8, held: u8) -> u8
    ensures answer { result ≡ held_after value held }
{
    let greater = held.max(value);
    if greater == GREATEST_HELD { 0 } else { greater }
}

// How far a counter runs at a stage, of a whole limit.
fn limit_at(whole: u32, stage: u8) -> u32
    ensures answer { result ≡ cond (nat_lt stage 5) whole (whole / 2) }
{
    if stage < HALF_STAGE { whole } else { whole / 2 }
}

// The stages once the byte count has run out.
pub(crate) fn byte_risen(stages: Stages) -> Stages
    ensures byte { result.byte ≡ risen stages.byte }
    ensures timer { result.timer ≡ stages.timer }
{
    Stages {
        byte: stages.byte.saturating_add(1),
        ..stages
    }
}

// The stages once the timer has expired.
pub(crate) fn timer_risen(stages: Stages) -> Stages
    ensures byte { result.byte ≡ stages.byte }
    ensures timer { result.timer ≡ risen stages.timer }
{
    Stages {
        timer: stages.timer.saturating_add(1),
        ..stages
    }
}

impl Row {
    fn fresh(settings: &Settings, serves: Identity) -> Row
        ensures answer { result ≡ fresh settings.now.figures serves }
    {
        Row {
            serves,
            rates: Rates {
                current: settings.line_rate(),
                target: settings.line_rate(),
            },
            stages: Stages { byte: 0, timer: 0 },
            byte_count: 0,
            time_left: settings.period(),
            credit: FULL_CREDIT,
            held: 0,
        }
    }

    // A notice of a value of 1 or more, with the rate that it cuts to.
    fn noticed(self, settings: &Settings, value: u8, cut: u32) -> Row
        ensures answer { result ≡ noticed settings.now.figures value cut self }
    {
        let first_cycle = self.stages.byte == 0;
        let target = if first_cycle {
            self.rates.target
        } else {
            self.rates.current
        };
        Row {
            rates: Rates {
                current: cut,
                target,
            },
            stages: Stages { byte: 0, timer: 0 },
            byte_count: if first_cycle { self.byte_count } else { 0 },
            time_left: settings.period(),
            held: held_after(value, self.held),
            ..self
        }
    }

    // An accepted frame, with the rates that are raised to if the byte count runs out.
    fn charged(self, settings: &Settings, length: u32, raised: Rates) -> Row
        ensures answer { result ≡ charged settings.now.figures length raised self }
    {
        let credit = (self.credit as u64).saturating_sub(charge(length)) as u32;
        let count = self.byte_count as u64 + length as u64;
        if count > limit_at(settings.byte_limit(), self.stages.byte) as u64 {
            Row {
                rates: raised,
                stages: byte_risen(self.stages),
                byte_count: 0,
                credit,
                ..self
            }
        } else {
            Row {
                byte_count: count as u32,
                credit,
                ..self
            }
        }
    }

    // The credit after some microseconds at the current rate.
    pub(crate) fn earned(self, micros: u32) -> u32
        ensures answer { result ≡ earned self micros }
    {
        let earned = self.credit as u64 + micros as u64 * self.rates.current as u64;
        earned.min(FULL_CREDIT as u64) as u32
    }

    // The timer's expiry, with the rates that are raised to and the credit then.
    pub(crate) fn expired(self, settings: &Settings, raised: Rates, credit: u32) -> Row
        ensures answer { result ≡ expired settings.now.figures raised credit self }
    {
        let stages = timer_risen(self.stages);
        Row {
            rates: raised,
            stages,
            time_left: limit_at(settings.period(), stages.timer),
            credit,
            ..self
        }
    }

    // So many microseconds without an expiry.
    pub(crate) fn passed(self, micros: u32) -> Row
        requires { micros ≤ self.time_left }
        ensures answer { result ≡ passed self micros }
    {
        Row {
            time_left: self.time_left - micros,
            credit: self.earned(micros),
            ..self
        }
    }

    // One microsecond, with the rates that are raised to if the timer expires.
    fn ticked(self, settings: &Settings, raised: Rates) -> Row
        ensures answer { result ≡ ticked settings.now.figures raised self }
    {
        if self.time_left > 1 {
            self.passed(1)
        } else {
            self.expired(settings, raised, self.earned(1))
        }
    }
}

impl Limiter {
    // One event, in place.
    pub fn step(&mut self, settings: &Settings, event: Event)
        ensures after { self.new ≡ stepped settings.now.figures event self.old }
    {
        *self = match (*self, event) {
            (Limiter::Free, Event::Taken(serves)) => {
                Limiter::InService(Row::fresh(settings, serves))
            }
            (Limiter::Free, _) => Limiter::Free,
            (Limiter::InService(row), Event::Taken(_) | Event::Notice(0, _)) => {
                Limiter::InService(row)
            }
            (Limiter::InService(row), Event::Notice(value, cut)) => {
                Limiter::InService(row.noticed(settings, value, cut))
            }
            (Limiter::InService(row), Event::Frame(_, _))
                if row.rates.current == settings.line_rate() => Limiter::Free,
            (Limiter::InService(row), Event::Frame(length, raised)) => {
                Limiter::InService(row.charged(settings, length, raised))
            }
            (Limiter::InService(row), Event::Microsecond(raised)) => {
                Limiter::InService(row.ticked(settings, raised))
            }
        };
    }
}
