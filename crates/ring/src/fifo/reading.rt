ghost use Rattle.std.specs.Prelude.{◌≡◌};

use crate::fifo::Ring;

impl Ring {
    // How many items wait.
    pub fn count(&self) -> usize
        ensures answer { result ≡ self.now.count }
    {
        self.count
    }

    // How many places the memory has to have.
    pub fn size(&self) -> usize
        ensures answer { result ≡ self.now.size }
    {
        self.size
    }
}
