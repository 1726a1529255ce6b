ghost use Rattle.std.specs.Prelude.{◌≡◌, ◌≤◌};
ghost use Rattle.limiters.specs.Table.{served, fits, first_in, part, serving, first_free, Below};

use crate::limiter::{Identity, Limiter};
use crate::table::{SLOTS, Table};

impl Limiter {
    // What it serves; None where it is free.
    pub fn serves(&self) -> Option<Identity>
        ensures answer { result ≡ served self.now }
    {
        match self {
            Limiter::Free => None,
            Limiter::InService(row) => Some(row.serves),
        }
    }

    // Whether it is what is looked for: one that serves an identity, or, at None, a free one.
    pub fn fits(&self, sought: Option<Identity>) -> bool
        ensures answer { result ≡ fits sought self.now }
    {
        self.serves() == sought
    }
}

impl Table {
    // The first slot from one place up to another that fits.
    // Each of the three searches states its bound: both public ones answer a `usize`, whose bound no type carries.
    fn first(&self, sought: Option<Identity>, from: usize, to: usize) -> Option<usize>
        requires order { from ≤ to }
        requires within { to ≤ 64 }
        ensures answer { result ≡ first_in sought from (part from to self.now.slots) }
        ensures bound { Below result }
    {
        self.slots[from..to]
            .iter()
            .position(|limiter| limiter.fits(sought))
            .map(|place| from + place)
    }

    // The slot that serves.
    pub fn serving(&self, who: Identity) -> Option<usize>
        ensures answer { result ≡ serving who self.now.slots }
        ensures bound { Below result }
    {
        self.first(Some(who), 0, SLOTS)
    }

    // The first free slot at or after the cursor, going round.
    pub fn free(&self) -> Option<usize>
        ensures answer { result ≡ first_free self.now.cursor self.now.slots }
        ensures bound { Below result }
    {
        self.first(None, self.cursor, SLOTS)
            .or_else(|| self.first(None, 0, self.cursor))
    }
}
