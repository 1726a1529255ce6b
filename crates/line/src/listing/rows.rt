ghost use Rattle.std.specs.Prelude.{◌≡◌, ◌+◌, ◌<◌, ◌≤◌, [], ◌∷◌, ◌++◌, length, take};

use crate::listing::{ListedRow, Listing};
use limiters::limiter::Identity;
use limiters::table::SLOTS;

impl Listing {
    pub(crate) fn empty() -> Listing
        ensures rows { take result.count result.rows ≡ [] }
        ensures count { result.count ≡ 0 }
    {
        Listing {
            rows: [ListedRow {
                slot: 0,
                serves: Identity { flow: 0 },
            }; SLOTS],
            count: 0,
        }
    }

    // Puts a row behind the others.
    pub(crate) fn add(&mut self, row: ListedRow)
        requires { self.old.count < 64 }
        ensures rows { take self.new.count self.new.rows ≡ take self.old.count self.old.rows ++ (row ∷ []) }
        ensures count { self.new.count ≡ self.old.count + 1 }
    {
        self.rows[self.count] = row;
        self.count += 1;
    }

    // The rows, in slot order.
    pub fn rows(&self) -> &[ListedRow]
        ensures answer { result.now ≡ take self.now.count self.now.rows }
        ensures bound { length result.now ≤ 64 }
    {
        &self.rows[0..self.count]
    }
}
