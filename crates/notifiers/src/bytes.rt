ghost use Rattle.std.specs.Prelude.{◌≡◌, ◌≤◌};
ghost use Rattle.notifiers.specs.Bytes.{period, byte_due, byte_spacing, byte_gap, first_bytes};
ghost use Rattle.std.proofs.Common.{rules};

use crate::sampler::Sampler;
use crate::spacing::Spacing;

// How many bytes pass between samples, by the eighth that the severity is in: the more severe, the sooner.
const PERIODS: [u32; 8] = [
    150_000, 75_000, 50_000, 37_500, 30_000, 25_000, 21_500, 18_500,
];

// Samples by the bytes since the last sample.
pub type Bytes = Sampler<ByBytes>;

#[derive(Clone, Copy)]
pub struct ByBytes;

// At most 63 is asked here: a type of severities would be opened again at each use, and only this table needs the bound.
fn period(severity: u8) -> u32
    requires { severity ≤ 63 }
    ensures answer { result ≡ period severity }
    ensures bound { result ≤ 150000 }
{
    PERIODS[(severity / 8) as usize]
}

impl Spacing for ByBytes {
    ghost gap = { byte_gap };

    ghost first = { first_bytes };

    ghost due = { byte_due };

    ghost after = { byte_spacing };

    ghost small = { Prim.search rules };

    ghost in_time = { Prim.search rules };

    fn start() -> ByBytes {
        ByBytes
    }

    fn count(&mut self, severity: u8, since: u32, _length: u32) -> bool {
        since > period(severity)
    }
}
