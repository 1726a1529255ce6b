ghost use Rattle.std.specs.Prelude.{◌≡◌, ◌≤◌, length};

use limiters::limiter::Identity;
use limiters::table::SLOTS;
use rates::rates::Rates;

pub mod rows;

// A flow's slot, if a limiter serves it, and the rates that it is held to.
#[derive(Clone, Copy)]
pub struct FlowRates {
    pub slot: Option<usize>,
    pub rates: Rates,
}

// A limiter in service.
#[derive(Clone, Copy)]
pub struct ListedRow {
    pub slot: usize,
    pub serves: Identity,
}

// The limiters in service, in slot order.
#[derive(Clone, Copy)]
pub struct Listing {
    rows: [ListedRow; SLOTS],
    // how many are in service, beside the array: no heap here, and the kit's `ArrayVec` can't be copied
    count: usize,
    ghost long: { length rows ≡ 64 },
    ghost inside: { count ≤ 64 },
}
