// Why a call that asks for memory gave nothing.
ghost use Rattle.std.specs.Prelude.{◌≡◌};
ghost use Rattle.fields.specs.declared.failure.Failure.TheVariants.{Memory};

use std::alloc::{AllocError, AllocFailed};

// An error with cases of its own and no Option<F>: `?` makes it of an allocation's failure.
#[derive(Clone, Copy, PartialEq, Eq, Debug, Drop)]
pub enum Failure<F> {
    // What was given is refused.
    Refused(F),
    // There was no memory.
    Memory,
}

impl<F> From<AllocError> for Failure<F> {
    ghost from_gives = { λ _ r. r ≡ Memory };

    fn from(_: AllocError) -> Failure<F> {
        Failure::Memory
    }
}

impl<T: Drop, F> From<AllocFailed<T>> for Failure<F> {
    ghost from_gives = { λ _ r. r ≡ Memory };

    fn from(_: AllocFailed<T>) -> Failure<F> {
        Failure::Memory
    }
}
