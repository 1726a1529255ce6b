ghost use Rattle.std.specs.Prelude.{◌≡◌, ◌+◌, ◌<◌, ◌≤◌, IfOk};
ghost use Rattle.silence.specs.Expiries.{ClimbsBack};
ghost use Rattle.silence.specs.Recovery.{Follows, Recovered};
ghost use Rattle.silence.specs.Stands.{shown, time_left_of, next_stand, strike_stand, ServingWithin};

use limiters::limiter::{Identity, Limiter};
use rates::rate_rule::RateRule;
use rates::rates::Rates;
use rates::regime::Regime;
use std::alloc::{AllocError, Global};

// The most expiries that are followed.
pub const MOST_EXPIRIES: u32 = 1000;

// Which flow is limited makes no difference here.
const FLOW: u32 = 0;

// What is told of an expiry of a limiter's timer, or, with the number 0, of the notice.
#[derive(Clone, Copy)]
pub struct Expiry {
    pub number: u32,
    // µs since the notice
    pub time: u32,
    pub stage: u8,
    pub rates: Rates,
}

// A silent flow's limiter, so many expiries and so long after the notice.
#[derive(Clone, Copy)]
struct Stand {
    number: u32,
    time: u32,
    limiter: Limiter,
}

impl Stand {
    // 0 for a free limiter, which is never met here.
    fn shown(&self) -> Expiry
        ensures answer { result ≡ shown self.now }
    {
        let (stage, rates) = match self.limiter {
            Limiter::Free => (
                0,
                Rates {
                    current: 0,
                    target: 0,
                },
            ),
            Limiter::InService(row) => (row.stages.timer, row.rates),
        };
        Expiry {
            number: self.number,
            time: self.time,
            stage,
            rates,
        }
    }

    // 0 for a free limiter, which is never met here.
    fn time_left(&self) -> u32
        ensures answer { result ≡ time_left_of self.now.limiter }
    {
        match self.limiter {
            Limiter::Free => 0,
            Limiter::InService(row) => row.time_left,
        }
    }

    // Waits for the next expiry.
    fn next<R: RateRule>(self, regime: &Regime<R>) -> Stand
        requires number { self.number < 1000 }
        requires time { self.time ≤ 100000000 }
        requires soon { time_left_of self.limiter ≤ 100000 }
        ensures answer { result ≡ next_stand (R.RateRule.meaning regime.now.rule) regime.now.settings.figures self }
    {
        let wait = self.time_left();
        let mut limiter = self.limiter;
        limiter.wait(regime, wait);
        Stand {
            number: self.number + 1,
            time: self.time + wait,
            limiter,
        }
    }
}

// A flow at the line rate, just after a notice of `value`: its limiter is taken, and hears it.
fn strike<R: RateRule>(regime: &Regime<R>, value: u8) -> Stand
    ensures answer { result ≡ strike_stand (R.RateRule.meaning regime.now.rule) regime.now.settings.figures value }
    ensures within { ServingWithin (R.RateRule.meaning regime.now.rule) regime.now.settings.figures result.limiter }
{
    let mut limiter = Limiter::Free;
    limiter.take(&regime.settings, Identity { flow: FLOW });
    limiter.hear(regime, value);
    Stand {
        number: 0,
        time: 0,
        limiter,
    }
}

// A flow's way from a notice back to the line rate.
#[derive(Drop)]
pub struct Recovery {
    pub start: Expiry,
    pub rows: Vec<Expiry>,
    pub end: Expiry,
}

// The expiries after `start`.
fn follow<R: RateRule>(
    heap: Global,
    regime: &Regime<R>,
    start: Stand,
) -> Result<Recovery, AllocError>
    requires number { start.number ≡ 0 }
    requires time { start.time ≡ 0 }
    requires within { ServingWithin (R.RateRule.meaning regime.now.rule) regime.now.settings.figures start.limiter }
    ensures answer { IfOk result (Follows (R.RateRule.meaning regime.now.rule) regime.now.settings.figures start) }
    ensures law { IfOk result (λ v. ClimbsBack regime.now.settings.figures.line_rate v.start v.rows.items) }
{
    let mut rows = Vec::new(heap);
    let mut stand = start;
    let mut end = start.shown();
    for _ in 0..MOST_EXPIRIES {
        if end.rates.current == regime.settings.line_rate() {
            break;
        }
        stand = stand.next(regime);
        end = stand.shown();
        rows.push(end)?;
    }
    Ok(Recovery {
        start: start.shown(),
        rows,
        end,
    })
}

// What follows a notice of `value` to a flow at the line rate that then stays silent.
pub fn recover<R: RateRule>(
    heap: Global,
    regime: &Regime<R>,
    value: u8,
) -> Result<Recovery, AllocError>
    ensures answer { IfOk result (Recovered (R.RateRule.meaning regime.now.rule) regime.now.settings.figures value) }
    ensures law { IfOk result (λ v. ClimbsBack regime.now.settings.figures.line_rate v.start v.rows.items) }
{
    follow(heap, regime, strike(regime, value))
}
