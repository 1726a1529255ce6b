ghost use Rattle.std.specs.Prelude.{◌≡◌, [], ◌∷◌, ◌++◌, IfOk, OnErr, OnOk};
ghost use Rattle.ring.specs.Answers.{push_answer, pop_answer};
ghost use Rattle.ring.specs.Held.{held};
ghost use Rattle.ring.specs.Standing.{standing_of};

use crate::frames::Frame;
use ring::fault::RingFault;
use ring::fifo::Ring;

#[derive(Clone, Copy, PartialEq, Eq, Debug)]
pub struct Notice {
    pub flow: u32,
    pub value: u8,
}

// Sends a notice to the flow of a frame.
pub fn post(
    ring: &mut Ring,
    memory: &mut [Notice],
    frame: Frame,
    value: u8,
) -> Result<(), RingFault>
    ensures answer { result ≡ push_answer (standing_of ring.old) memory.old }
    ensures refused { OnErr result ((ring.new ≡ ring.old) × (memory.new ≡ memory.old)) }
    ensures law { OnOk result (held ring.new memory.new ≡ held ring.old memory.old ++ (record { flow = frame.flow; value = value } ∷ [])) }
{
    let notice = Notice {
        flow: frame.flow,
        value,
    };
    ring.push(memory, notice)
}

// Takes the notice that waits longest, and puts another behind the rest, for which there is then always room.
pub fn exchange(ring: &mut Ring, memory: &mut [Notice], notice: Notice) -> Result<Notice, RingFault>
    ensures answer { result ≡ pop_answer (standing_of ring.old) memory.old }
    ensures refused { OnErr result ((ring.new ≡ ring.old) × (memory.new ≡ memory.old)) }
    ensures law { IfOk result (λ oldest. oldest ∷ held ring.new memory.new ≡ held ring.old memory.old ++ (notice ∷ [])) }
{
    let oldest = ring.pop(memory)?;
    ring.push(memory, notice)?;
    Ok(oldest)
}
