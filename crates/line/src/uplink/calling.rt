ghost use Rattle.std.specs.Prelude.{◌≡◌};
ghost use Rattle.tally.specs.Saying.{said};
ghost use Rattle.line.specs.Calls.{answer_of, state_after};
ghost use Rattle.line.specs.Holds.{Follows};
ghost use Rattle.line.specs.State.{state};

use crate::uplink::Line;
use notifiers::notifier::Notifier;
use rates::rate_rule::RateRule;
use tally::call::{Answer, Call};
use tally::fault::CallFault;
use tally::frame::Frame;
use tally::notice::Notice;

impl<R: RateRule, N: Notifier> Line<R, N> {
    // Makes a call that is given as a value.
    pub fn make_call(
        &mut self,
        frames: &mut [Frame],
        wire: &mut [Notice],
        call: Call,
    ) -> Result<Answer, CallFault>
        ensures answer { result ≡ answer_of R.RateRule N.Notifier (state self.old frames.old wire.old) (said call.entry) }
        ensures after { state self.new frames.new wire.new ≡ state_after R.RateRule N.Notifier (state self.old frames.old wire.old) (said call.entry) }
        ensures follows { Follows R.RateRule N.Notifier (state self.old frames.old wire.old) (said call.entry) result (state self.new frames.new wire.new) }
    {
        match call {
            Call::Offer(who, length) => self.offer(frames, wire, who, length).map(Answer::Accepted),
            Call::Leave => self.leave(frames, wire).map(Answer::Left),
            Call::Deliver => self.deliver(frames, wire).map(Answer::Heard),
            Call::Receive(bytes) => self.receive(frames, wire, bytes).map(Answer::Heard),
            Call::Wait(wait) => self.wait(frames, wire, wait).map(Answer::Waited),
        }
    }
}
