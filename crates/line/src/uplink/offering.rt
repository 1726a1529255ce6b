ghost use Rattle.std.specs.Prelude.{◌≡◌, length, OnErr};
ghost use Rattle.ring.specs.Standing.{standing_of};
ghost use Rattle.tally.specs.Offering.{lawful_length, posted};
ghost use Rattle.tally.specs.Steps.{told_offer, offer as offering};
ghost use Rattle.line.specs.Holds.{Follows};
ghost use Rattle.line.specs.Offer.{pages_more, has_room, ring_posted, memory_posted, answer, after};
ghost use Rattle.line.specs.State.{state};

use crate::uplink::Line;
use limiters::limiter::Identity;
use notifiers::notifier::Notifier;
use notifiers::shown::{LONGEST, MOST_PAGES, SHORTEST, Showing, Shown};
use rates::rate_rule::RateRule;
use ring::fifo::Ring;
use tally::call::Offered;
use tally::fault::CallFault;
use tally::frame::{Frame, pages};
use tally::notice::Notice;

// The notifier asks the same of what it is shown, beside other things.
fn lawful_length(length: u32) -> bool
    ensures answer { result ≡ lawful_length length }
{
    (SHORTEST..=LONGEST).contains(&length)
}

// The pages that wait with a frame more; other hands may have made them too many.
fn pages_more(waiting: u32, length: u32) -> u32
    ensures answer { result ≡ pages_more waiting length }
{
    waiting.saturating_add(pages(length)).min(MOST_PAGES)
}

// Puts a notice on the wire, if one was made; on a full wire it is gone.
fn post(ring: &mut Ring, wire: &mut [Notice], who: Identity, showing: Showing) -> Offered
    requires sized { length wire.old ≡ (standing_of ring.old).size }
    ensures answer { result ≡ posted (has_room (standing_of ring.old)) showing }
    ensures after { standing_of ring.new ≡ ring_posted (has_room (standing_of ring.old)) showing (standing_of ring.old) }
    ensures written { wire.new ≡ memory_posted (has_room (standing_of ring.old)) who showing (standing_of ring.old) wire.old }
{
    match showing {
        Showing::Unsampled => Offered::Unsampled,
        Showing::Quiet => Offered::Quiet,
        Showing::Notice(value) => match ring.push(wire, Notice { to: who, value }) {
            Ok(()) => Offered::Waiting(value),
            Err(_) => Offered::Overrun(value),
        },
    }
}

impl<R: RateRule, N: Notifier> Line<R, N> {
    // Offers a frame of a flow: it is charged, put behind those that wait, and shown to the notifier.
    pub fn offer(
        &mut self,
        frames: &mut [Frame],
        wire: &mut [Notice],
        who: Identity,
        length: u32,
    ) -> Result<Offered, CallFault>
        ensures answer { result ≡ answer R.RateRule N.Notifier (state self.old frames.old wire.old) who length }
        ensures after { state self.new frames.new wire.new ≡ after R.RateRule N.Notifier (state self.old frames.old wire.old) who length }
        ensures refused { OnErr result (state self.new frames.new wire.new ≡ state self.old frames.old wire.old) }
        ensures follows { Follows R.RateRule N.Notifier (state self.old frames.old wire.old) (offering who length) (told_offer result) (state self.new frames.new wire.new) }
    {
        self.check_sizes(frames, wire)?;
        if !lawful_length(length) {
            return Err(CallFault::Length);
        }
        if !self.frames.has_room() {
            return Err(CallFault::Full);
        }
        let mark = self
            .table
            .pass(&self.regime, who, length)
            .ok_or(CallFault::Pace)?;
        let frame = Frame {
            from: who,
            length,
            mark,
        };
        // It has room, as was asked above.
        let _ = self.frames.push(frames, frame);
        self.pages = pages_more(self.pages, length);
        let shown = Shown {
            pages: self.pages,
            length,
            mark,
        };
        let showing = self.notifier.show(shown);
        Ok(post(&mut self.wire, wire, who, showing))
    }
}
