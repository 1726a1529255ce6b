ghost use Rattle.std.specs.Prelude.{◌≡◌, OnErr};
ghost use Rattle.tally.specs.Steps.{leave as leaving, told_leave};
ghost use Rattle.line.specs.Holds.{Follows};
ghost use Rattle.line.specs.State.{state};
ghost use Rattle.line.specs.Taking.{leave_answer, leave_after};

use crate::uplink::Line;
use notifiers::notifier::Notifier;
use rates::rate_rule::RateRule;
use tally::fault::CallFault;
use tally::frame::{Frame, pages};
use tally::notice::Notice;

impl<R: RateRule, N: Notifier> Line<R, N> {
    // Takes the oldest frame, and its pages; other hands may have made it longer than they are.
    pub fn leave(&mut self, frames: &[Frame], wire: &[Notice]) -> Result<Frame, CallFault>
        ensures answer { result ≡ leave_answer (state self.old frames.now wire.now) }
        ensures after { state self.new frames.now wire.now ≡ leave_after (state self.old frames.now wire.now) }
        ensures refused { OnErr result (state self.new frames.now wire.now ≡ state self.old frames.now wire.now) }
        ensures follows { Follows R.RateRule N.Notifier (state self.old frames.now wire.now) leaving (told_leave result) (state self.new frames.now wire.now) }
    {
        self.check_sizes(frames, wire)?;
        let frame = self.frames.pop(frames).map_err(|_| CallFault::NoFrame)?;
        self.pages = self.pages.saturating_sub(pages(frame.length));
        Ok(frame)
    }
}
