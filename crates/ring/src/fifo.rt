ghost use Rattle.std.specs.Prelude.{◌-◌, ◌≤◌};

mod making;
mod putting;
mod reading;
mod taking;

// A ring's bookkeeping. The items lie in memory that each call is handed, so each call asks whether that has `size` places.
#[derive(Clone, Copy)]
pub struct Ring {
    // The place of the oldest item.
    head: usize,
    // How many items wait.
    count: usize,
    // How many places the memory has.
    size: usize,
    // Within the memory, and 0 where that has no place.
    ghost head_in: { head ≤ size - 1 },
    ghost count_in: { count ≤ size },
}
