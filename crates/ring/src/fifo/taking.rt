ghost use Rattle.std.specs.Prelude.{◌≡◌, ◌<◌, ◌∷◌, length, is_ok, IfOk, if◌then◌else◌, OnErr, OnOk};
ghost use Rattle.ring.specs.Standing.{standing_of, next_place, popped};
ghost use Rattle.ring.specs.Held.{held, waiting};
ghost use Rattle.ring.specs.Answers.{pop_answer};

use crate::fault::RingFault;
use crate::fifo::Ring;

impl Ring {
    // The place after the head: the first one after the last.
    fn after_head(&self) -> usize
        ensures answer { result ≡ next_place self.now.size self.now.head }
    {
        let next = self.head + 1;
        if next < self.size { next } else { 0 }
    }

    // What lies at the head, where an item waits.
    fn first<T: Copy>(&self, memory: &[T]) -> T
        requires { (0 < self.now.count) × (length memory.now ≡ self.now.size) }
        ensures counted { length (held self.now memory.now) ≡ self.now.count }
        ensures law { held self.now memory.now ≡ result ∷ waiting (popped (standing_of self.now)) memory.now }
    {
        memory[self.head]
    }

    // The item that waits longest, which stays.
    pub fn oldest<T: Copy>(&self, memory: &[T]) -> Result<T, RingFault>
        ensures answer { result ≡ pop_answer (standing_of self.now) memory.now }
        ensures counted { length memory.now ≡ self.now.size → length (held self.now memory.now) ≡ self.now.count }
        ensures waits { OnOk result (0 < self.now.count) }
        ensures law { IfOk result (λ item. held self.now memory.now ≡ item ∷ waiting (popped (standing_of self.now)) memory.now) }
    {
        if memory.len() != self.size {
            return Err(RingFault::Size);
        }
        if self.count == 0 {
            return Err(RingFault::Empty);
        }
        Ok(self.first(memory))
    }

    // Takes the item that waits longest.
    pub fn pop<T: Copy>(&mut self, memory: &[T]) -> Result<T, RingFault>
        ensures answer { result ≡ pop_answer (standing_of self.old) memory.now }
        ensures after { standing_of self.new ≡ (if is_ok result then popped (standing_of self.old) else standing_of self.old) }
        ensures refused { OnErr result (self.new ≡ self.old) }
        ensures law { IfOk result (λ item. held self.old memory.now ≡ item ∷ held self.new memory.now) }
    {
        let item = self.oldest(memory)?;
        self.head = self.after_head();
        self.count -= 1;
        Ok(item)
    }
}
