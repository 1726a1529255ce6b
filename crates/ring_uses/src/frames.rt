ghost use Rattle.std.specs.Prelude.{◌≡◌, length, if◌then◌else◌, Ok, Err, nat_eq};
ghost use Rattle.ring.specs.declared.fault.RingFault.TheVariants.{Full};

use ring::fault::RingFault;
use ring::fifo::Ring;

// A record of its own, as the notice is: the ring rests on no crate that has one.
#[derive(Clone, Copy, PartialEq, Eq, Debug)]
pub struct Frame {
    pub flow: u32,
    // Bytes.
    pub length: u32,
    pub mark: u8,
}

// A frame goes into a new ring over a memory and comes out again, where the memory has a place.
pub fn pass_through(memory: &mut [Frame], frame: Frame) -> Result<Frame, RingFault>
    ensures answer { result ≡ (if nat_eq (length memory.old) 0 then Err Full else Ok frame) }
{
    let mut ring = Ring::new(memory.len());
    ring.push(memory, frame)?;
    ring.pop(memory)
}
