ghost use Rattle.std.specs.Prelude.{◌≡◌, ◌≤◌};
ghost use Rattle.notifiers.specs.Frames.{threshold, frame_due, frame_spacing, frame_gap, first_frames};
ghost use Rattle.std.proofs.Common.{rules};

use crate::sampler::Sampler;
use crate::spacing::Spacing;

// A hundred frames pass between samples at severity 0, and ten at 63: their number falls as the chance of a sample,
// made regular, would rise.
const SCALE: u32 = 6_400;

const LEAST_SHARE: u32 = 64;

const SHARE: u32 = 9;

// A hundred frames of the longest.
const GAP: u64 = 200_000;

// Samples by the frames since the last sample.
pub type Frames = Sampler<ByFrames>;

#[derive(Clone, Copy)]
pub struct ByFrames {
    // frames since the last sample
    passed: u32,
}

// With so many frames, the sampled one counted, a sample is due.
fn threshold(severity: u8) -> u32
    ensures answer { result ≡ threshold severity }
    ensures bound { result ≤ 100 }
{
    SCALE / (LEAST_SHARE + SHARE * severity as u32)
}

impl Spacing for ByFrames {
    ghost gap = { frame_gap };

    ghost first = { first_frames };

    ghost due = { frame_due };

    ghost after = { frame_spacing };

    ghost small = { Prim.search rules };

    ghost in_time = { Prim.search rules };

    fn start() -> ByFrames {
        ByFrames { passed: 0 }
    }

    // Enough frames have come, or the bytes would pass the gap, which frames alone never do.
    fn count(&mut self, severity: u8, since: u32, length: u32) -> bool {
        let due = threshold(severity) as u64 <= self.passed as u64 + 1
            || GAP < since as u64 + length as u64;
        self.passed = if due { 0 } else { self.passed + 1 };
        due
    }
}
