ghost use Rattle.std.specs.Prelude.{◌≡◌, ◌<◌, [], ◌∷◌, ◌++◌, length, is_ok, if◌then◌else◌, OnErr, OnOk, nat_lt, slice_set};
ghost use Rattle.ring.specs.Standing.{standing_of, tail_place, pushed};
ghost use Rattle.ring.specs.Held.{held, waiting};
ghost use Rattle.ring.specs.Answers.{push_answer};

use crate::fault::RingFault;
use crate::fifo::Ring;

impl Ring {
    // Whether one more item can join those that wait.
    pub fn has_room(&self) -> bool
        ensures answer { result ≡ nat_lt self.now.count self.now.size }
    {
        self.count < self.size
    }

    // The first place behind the waiting items. The sum of head and count need not fit, so it is not formed.
    fn tail(&self) -> usize
        requires { self.now.count < self.now.size }
        ensures answer { result ≡ tail_place (standing_of self.now) }
    {
        let before_end = self.size - self.head;
        if self.count < before_end {
            self.head + self.count
        } else {
            self.count - before_end
        }
    }

    // The place where one more item joins those that wait.
    fn free_place<T: Copy>(&self, memory: &[T]) -> usize
        requires { (self.now.count < self.now.size) × (length memory.now ≡ self.now.size) }
        ensures answer { result ≡ tail_place (standing_of self.now) }
        ensures within { result < length memory.now }
        ensures law { (item : T) → waiting (pushed (standing_of self.now)) (slice_set memory.now result item) ≡ held self.now memory.now ++ (item ∷ []) }
    {
        self.tail()
    }

    // Puts an item behind those that wait.
    pub fn push<T: Copy>(&mut self, memory: &mut [T], item: T) -> Result<(), RingFault>
        ensures answer { result ≡ push_answer (standing_of self.old) memory.old }
        ensures after { standing_of self.new ≡ (if is_ok result then pushed (standing_of self.old) else standing_of self.old) }
        ensures written { memory.new ≡ (if is_ok result then slice_set memory.old (tail_place (standing_of self.old)) item else memory.old) }
        ensures refused { OnErr result ((self.new ≡ self.old) × (memory.new ≡ memory.old)) }
        ensures law { OnOk result (held self.new memory.new ≡ held self.old memory.old ++ (item ∷ [])) }
    {
        if memory.len() != self.size {
            return Err(RingFault::Size);
        }
        if !self.has_room() {
            return Err(RingFault::Full);
        }
        let place = self.free_place(memory);
        memory[place] = item;
        self.count += 1;
        Ok(())
    }
}
