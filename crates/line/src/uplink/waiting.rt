ghost use Rattle.std.specs.Prelude.{◌≡◌, OnErr};
ghost use Rattle.line.specs.Calls.{wait_answer, wait_after};
ghost use Rattle.tally.specs.Steps.{wait as waiting, told_wait};
ghost use Rattle.line.specs.Holds.{Follows};
ghost use Rattle.line.specs.State.{state};

use crate::uplink::Line;
use notifiers::notifier::Notifier;
use rates::rate_rule::RateRule;
use tally::fault::CallFault;
use tally::frame::Frame;
use tally::notice::Notice;

// The longest wait, µs.
pub const LONGEST_WAIT: u32 = 1_000_000;

impl<R: RateRule, N: Notifier> Line<R, N> {
    // Waits so many microseconds; how many expiries there were.
    pub fn wait(&mut self, frames: &[Frame], wire: &[Notice], wait: u32) -> Result<u64, CallFault>
        ensures answer { result ≡ wait_answer R.RateRule (state self.old frames.now wire.now) wait }
        ensures after { state self.new frames.now wire.now ≡ wait_after R.RateRule (state self.old frames.now wire.now) wait }
        ensures refused { OnErr result (state self.new frames.now wire.now ≡ state self.old frames.now wire.now) }
        ensures follows { Follows R.RateRule N.Notifier (state self.old frames.now wire.now) (waiting wait) (told_wait result) (state self.new frames.now wire.now) }
    {
        self.check_sizes(frames, wire)?;
        if wait > LONGEST_WAIT {
            return Err(CallFault::Wait);
        }
        Ok(self.table.wait(&self.regime, wait))
    }
}
