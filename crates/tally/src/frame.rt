ghost use Rattle.std.specs.Prelude.{◌≡◌};
ghost use Rattle.tally.specs.Tally.{pages};

use limiters::limiter::Identity;

// A page of the queue, bytes.
const PAGE: u32 = 256;

// A frame that waits.
#[derive(Clone, Copy)]
pub struct Frame {
    pub from: Identity,
    // bytes
    pub length: u32,
    // the value that the flow's limiter held when the frame was accepted
    pub mark: u8,
}

// How many pages a frame takes: a page that is begun counts whole.
pub fn pages(length: u32) -> u32
    ensures answer { result ≡ pages length }
{
    length.div_ceil(PAGE)
}
