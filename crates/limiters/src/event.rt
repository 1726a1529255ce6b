use crate::limiter::Identity;
use rates::rates::Rates;

// What can come to a limiter. The rate rule is asked before, and the event carries its answer.
// An enum and not calls: the definition of a step is by what a limiter is and what comes.
#[derive(Clone, Copy)]
pub enum Event {
    Taken(Identity),
    // A value, and the current rate that it cuts to.
    Notice(u8, u32),
    // An accepted frame's length, and the rates that are raised to if the byte stage rises.
    Frame(u32, Rates),
    // The rates that are raised to if the timer expires.
    Microsecond(Rates),
}
