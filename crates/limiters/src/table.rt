ghost use Rattle.std.specs.Prelude.{◌≡◌, ◌<◌, length};

use crate::limiter::Limiter;

pub mod passing;
pub mod placing;
pub mod searching;
pub mod sleeping;

// How many limiters a line has.
pub const SLOTS: usize = 64;

// The limiters of a line, and where the search for a free one begins.
#[derive(Clone, Copy)]
pub struct Table {
    slots: [Limiter; SLOTS],
    cursor: usize,
    ghost long: { length slots ≡ 64 },
    ghost inside: { cursor < 64 },
}
