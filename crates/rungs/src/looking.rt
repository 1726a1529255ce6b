ghost use Rattle.std.specs.Prelude.{◌≡◌, ◌+◌};
ghost use Rattle.rungs.specs.Rungs.{listed, Parted, greatest_below, least_from, GreatestBelow, LeastFrom};

use crate::table::RUNGS;

// The rungs, lowest first.
fn rungs() -> &'static [u32]
    ensures answer { result.now ≡ listed 0 640 }
{
    &RUNGS
}

// How many rungs are below a rate.
fn count_below(rate: u64) -> usize
    ensures answer { Parted rate result }
{
    rungs().partition_point(|rung| (*rung as u64) < rate)
}

fn greatest_under(limit: u64) -> Option<u32>
    ensures answer { result ≡ greatest_below limit }
    ensures law { GreatestBelow limit result }
{
    rungs()[..count_below(limit)].last().copied()
}

fn least_from(limit: u64) -> Option<u32>
    ensures answer { result ≡ least_from limit }
    ensures law { LeastFrom limit result }
{
    rungs().get(count_below(limit)).copied()
}

// The greatest rung below a rate.
pub fn below(rate: u32) -> Option<u32>
    ensures answer { result ≡ greatest_below rate }
    ensures law { GreatestBelow rate result }
{
    greatest_under(rate as u64)
}

// The greatest rung that is not above a rate.
pub fn not_above(rate: u32) -> Option<u32>
    ensures answer { result ≡ greatest_below (rate + 1) }
    ensures law { GreatestBelow (rate + 1) result }
{
    greatest_under(rate as u64 + 1)
}

// The least rung that is at least a rate.
pub fn at_least(rate: u32) -> Option<u32>
    ensures answer { result ≡ least_from rate }
    ensures law { LeastFrom rate result }
{
    least_from(rate as u64)
}
