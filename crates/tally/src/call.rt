use crate::frame::Frame;
use limiters::limiter::Identity;

// A call on a line. It is a value, since what holds over runs speaks of lists of calls.
#[derive(Clone, Copy)]
pub enum Call<'a> {
    // A frame of a length, bytes.
    Offer(Identity, u32),
    Leave,
    Deliver,
    // The bytes of a feedback record.
    Receive(&'a [u8]),
    // µs
    Wait(u32),
}

// What becomes of a frame that is accepted.
#[derive(Clone, Copy)]
pub enum Offered {
    // The notifier took no sample.
    Unsampled,
    // A sample without a notice.
    Quiet,
    // A notice of this value now waits on the wire.
    Waiting(u8),
    // The wire was full: the notice of this value is gone.
    Overrun(u8),
}

// What becomes of a notice.
#[derive(Clone, Copy)]
pub enum Outcome {
    // The limiter in this slot heard it, and its current rate is now this, kbit/s.
    Applied { slot: usize, current: u32 },
    // No slot was free for it.
    Unplaced(Identity),
    // Its value is 0.
    Ignored,
}

// What any of the calls answers, unless it is refused.
#[derive(Clone, Copy)]
pub enum Answer {
    Accepted(Offered),
    Left(Frame),
    Heard(Outcome),
    // How many expiries there were.
    Waited(u64),
}
