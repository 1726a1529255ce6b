ghost use Rattle.std.specs.Prelude.{◌≤◌};

pub mod making;

// Two rates in order, made by value for one raise.
// It has the fields of `Rates` and no `Rates` in it: each use reads one of the two, and the invariant is between them.
#[derive(Clone, Copy)]
pub struct RatePair {
    pub current: u32,
    pub target: u32,
    ghost ordered: { current ≤ target },
}
