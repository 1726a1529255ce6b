ghost use Rattle.std.specs.Prelude.{◌≡◌, map, length, take, drop, IfOk, IfErr};
ghost use Rattle.tally.specs.Promises.{HoldsAlways};
ghost use Rattle.tally.specs.Saying.{said};
ghost use Rattle.line.specs.Opening.{open_refusal, returned, refusal_in};
ghost use Rattle.line.specs.Serving.{made_of, Runs, Served};
ghost use Rattle.line.specs.State.{state};

use crate::uplink::{Line, NotOpened};
use notifiers::notifier::Notifier;
use rates::rate_rule::RateRule;
use rates::regime::Regime;
use tally::call::{Answer, Call};
use tally::fault::CallFault;
use tally::frame::Frame;
use tally::notice::Notice;

impl<R: RateRule, N: Notifier> Line<R, N> {
    // Makes a whole list of calls, as many as there are places for their answers.
    pub fn make_calls(
        &mut self,
        frames: &mut [Frame],
        wire: &mut [Notice],
        calls: &[Call],
        answers: &mut [Result<Answer, CallFault>],
    )
        ensures runs { Runs R.RateRule N.Notifier (state self.old frames.old wire.old) (map said (take (made_of calls.now answers.old) calls.now)) (take (made_of calls.now answers.old) answers.new) (state self.new frames.new wire.new) }
        ensures rest { drop (made_of calls.now answers.old) answers.new ≡ drop (made_of calls.now answers.old) answers.old }
    {
        let count = calls.len().min(answers.len());
        // Not a zip with `answers.iter_mut()`: nothing is known of the answers after it.
        for (place, call) in calls[..count].iter().enumerate() {
            answers[place] = self.make_call(frames, wire, *call);
        }
    }

    // Opens a line and makes a whole list of calls, as many as there are places for their answers.
    pub fn serve(
        regime: Regime<R>,
        notifier: N,
        frames: &mut [Frame],
        wire: &mut [Notice],
        calls: &[Call],
        answers: &mut [Result<Answer, CallFault>],
    ) -> Result<Line<R, N>, NotOpened<R, N>>
        ensures answer { refusal_in result ≡ open_refusal regime.settings (N.Notifier.meter notifier) (length frames.old) (length wire.old) }
        ensures refused { IfErr result (λ e. (e ≡ returned regime notifier e.fault) × (frames.new ≡ frames.old) × (wire.new ≡ wire.old) × (answers.new ≡ answers.old)) }
        ensures serves { IfOk result (λ l. Served R.RateRule N.Notifier regime notifier frames.old wire.old (map said (take (made_of calls.now answers.old) calls.now)) (take (made_of calls.now answers.old) answers.new) (state l frames.new wire.new)) }
        ensures rest { drop (made_of calls.now answers.old) answers.new ≡ drop (made_of calls.now answers.old) answers.old }
        ensures law { HoldsAlways }
    {
        let mut line = Line::open(regime, notifier, frames, wire)?;
        line.make_calls(frames, wire, calls, answers);
        Ok(line)
    }
}
