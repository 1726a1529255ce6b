ghost use Rattle.std.specs.Prelude.{◌≡◌, OnErr};
ghost use Rattle.limiters.specs.Bounds.{current_of};
ghost use Rattle.tally.specs.Heeding.{heeded, slots_heeding, cursor_heeding};
ghost use Rattle.tally.specs.Steps.{deliver as delivering, receive as receiving, told_notice};
ghost use Rattle.line.specs.Holds.{Follows};
ghost use Rattle.line.specs.State.{state};
ghost use Rattle.line.specs.Taking.{lawful_notice, deliver_answer, deliver_after, receive_answer, receive_after};

use crate::uplink::Line;
use limiters::limiter::{Identity, Limiter};
use limiters::table::Table;
use notifiers::notifier::Notifier;
use rates::rate_rule::RateRule;
use rates::regime::Regime;
use record::read;
use tally::call::Outcome;
use tally::fault::CallFault;
use tally::frame::Frame;
use tally::notice::Notice;

// The greatest value.
const MOST_SEVERE: u8 = 63;

// A notice from the wire: other hands may have made its value too great.
fn lawful(notice: Notice) -> Notice
    ensures answer { result ≡ lawful_notice notice }
{
    Notice {
        value: notice.value.min(MOST_SEVERE),
        ..notice
    }
}

// 0 for a free limiter, which a notice never leaves.
fn current_of(limiter: Limiter) -> u32
    ensures answer { result ≡ current_of limiter }
{
    match limiter {
        Limiter::Free => 0,
        Limiter::InService(row) => row.rates.current,
    }
}

// A notice arrives.
fn heed<R: RateRule>(table: &mut Table, regime: &Regime<R>, notice: Notice) -> Outcome
    ensures answer { result ≡ heeded (R.RateRule.meaning regime.now.rule) regime.now.settings.figures table.old.cursor table.old.slots notice }
    ensures slots { table.new.slots ≡ slots_heeding (R.RateRule.meaning regime.now.rule) regime.now.settings.figures table.old.cursor table.old.slots notice }
    ensures cursor { table.new.cursor ≡ cursor_heeding (R.RateRule.meaning regime.now.rule) regime.now.settings.figures table.old.cursor table.old.slots notice }
{
    if notice.value == 0 {
        return Outcome::Ignored;
    }
    match table.notice(regime, notice.to, notice.value) {
        Some(slot) => Outcome::Applied {
            slot,
            current: current_of(table.limiter(slot)),
        },
        None => Outcome::Unplaced(notice.to),
    }
}

impl<R: RateRule, N: Notifier> Line<R, N> {
    // Takes the oldest notice, and applies it.
    pub fn deliver(&mut self, frames: &[Frame], wire: &[Notice]) -> Result<Outcome, CallFault>
        ensures answer { result ≡ deliver_answer R.RateRule (state self.old frames.now wire.now) }
        ensures after { state self.new frames.now wire.now ≡ deliver_after R.RateRule (state self.old frames.now wire.now) }
        ensures refused { OnErr result (state self.new frames.now wire.now ≡ state self.old frames.now wire.now) }
        ensures follows { Follows R.RateRule N.Notifier (state self.old frames.now wire.now) delivering (told_notice result) (state self.new frames.now wire.now) }
    {
        self.check_sizes(frames, wire)?;
        let notice = self.wire.pop(wire).map_err(|_| CallFault::NoNotice)?;
        Ok(heed(&mut self.table, &self.regime, lawful(notice)))
    }

    // Applies the notice of a feedback record.
    pub fn receive(
        &mut self,
        frames: &[Frame],
        wire: &[Notice],
        bytes: &[u8],
    ) -> Result<Outcome, CallFault>
        ensures answer { result ≡ receive_answer R.RateRule (state self.old frames.now wire.now) bytes.now }
        ensures after { state self.new frames.now wire.now ≡ receive_after R.RateRule (state self.old frames.now wire.now) bytes.now }
        ensures refused { OnErr result (state self.new frames.now wire.now ≡ state self.old frames.now wire.now) }
        ensures follows { Follows R.RateRule N.Notifier (state self.old frames.now wire.now) (receiving bytes.now) (told_notice result) (state self.new frames.now wire.now) }
    {
        self.check_sizes(frames, wire)?;
        let record = read(bytes)?;
        let notice = Notice {
            to: Identity { flow: record.flow },
            value: record.value,
        };
        Ok(heed(&mut self.table, &self.regime, notice))
    }
}
