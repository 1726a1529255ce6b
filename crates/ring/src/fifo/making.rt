ghost use Rattle.std.specs.Prelude.{◌≡◌};
ghost use Rattle.ring.specs.Standing.{standing_of, fresh};

use crate::fifo::Ring;

impl Ring {
    // A ring over any memory of `size` places, 0 among them, with nothing waiting.
    pub fn new(size: usize) -> Ring
        ensures answer { standing_of result ≡ fresh size }
    {
        Ring {
            head: 0,
            count: 0,
            size,
        }
    }
}
