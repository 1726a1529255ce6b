ghost use Rattle.std.specs.Prelude.{◌≡◌, ◌≤◌, [], ◌++◌, length, IfOk, vec_len, vec_capacity, OnErr, OnOk};
ghost use Rattle.ring.specs.Standing.{standing_of};
ghost use Rattle.ring.specs.Held.{held};
ghost use Rattle.ring.specs.Calls.{answer_to, standing_after, memory_after};
ghost use Rattle.ring.specs.Runs.{answers_to, standing_at_end, memory_at_end, taken_off, put_in};

use crate::fault::RingFault;
use crate::fifo::Ring;
use std::alloc::{AllocError, Global};

// A call that moves a ring. It is a value, since the law of many calls speaks of a list of them.
#[derive(Clone, Copy)]
pub enum Call<T> {
    Push(T),
    Pop,
}

// What such a call answers where it is not refused. An enum and no Option: None would not say what became of a push.
#[derive(Clone, Copy)]
pub enum Answer<T> {
    // The item that was put now waits.
    Accepted,
    // The item that waited longest.
    Taken(T),
}

impl Ring {
    // Makes one call.
    pub fn make_call<T: Copy>(
        &mut self,
        memory: &mut [T],
        call: Call<T>,
    ) -> Result<Answer<T>, RingFault>
        ensures answer { result ≡ answer_to (standing_of self.old) memory.old call }
        ensures after { standing_of self.new ≡ standing_after (standing_of self.old) memory.old call }
        ensures written { memory.new ≡ memory_after (standing_of self.old) memory.old call }
    {
        Ok(match call {
            Call::Push(item) => {
                self.push(memory, item)?;
                Answer::Accepted
            }
            Call::Pop => Answer::Taken(self.pop(memory)?),
        })
    }
}

// Makes a whole list of calls, refused ones among them, and answers each. Room for the answers is asked for
// before the first call, so that for want of it none is made.
#[tactic(auto, using(crate::proofs::Playing::so_far_none, crate::proofs::Playing::answered_all, crate::proofs::Playing::stands_at_end, crate::proofs::Playing::holds_at_end, crate::proofs::Order::in_order))]
pub fn replay<T: Copy>(
    heap: Global,
    ring: &mut Ring,
    memory: &mut [T],
    calls: &[Call<T>],
) -> Result<Vec<Result<Answer<T>, RingFault>>, AllocError>
    ensures answer { IfOk result (λ v. v.items ≡ answers_to (standing_of ring.old) memory.old calls.now) }
    ensures after { OnOk result (standing_of ring.new ≡ standing_at_end (standing_of ring.old) memory.old calls.now) }
    ensures written { OnOk result (memory.new ≡ memory_at_end (standing_of ring.old) memory.old calls.now) }
    ensures refused { OnErr result ((ring.new ≡ ring.old) × (memory.new ≡ memory.old)) }
    ensures law { IfOk result (λ v. taken_off v.items ++ held ring.new memory.new ≡ held ring.old memory.old ++ put_in calls.now v.items) }
{
    let mut answers = Vec::with_capacity(heap, calls.len())?;
    for call in calls {
        answers.push_reserved(ring.make_call(memory, *call));
    }
    Ok(answers)
}
