ghost use Rattle.std.specs.Prelude.{◌≡◌, ℕ, ◌+◌, ◌^◌, ◌<◌, ◌≤◌, Bool, true};

// When the next sample comes, and what is counted for it besides bytes.
pub trait Spacing: Sized {
    // The most bytes between samples.
    ghost gap: { ℕ };

    // As it is before the first frame.
    ghost first: { Self };

    // Whether a frame is a sample, by its severity, the bytes since the last sample, and its length.
    ghost due: { Self → ℕ → ℕ → ℕ → Bool };

    // As it is after a frame, by whether that was a sample.
    ghost after: { Self → Bool → Self };

    fn start() -> Self
        ensures answer { result ≡ first };

    // Counts a frame, and says whether it is a sample.
    // At most 63 is asked for the table of periods alone: a type for it would be opened again at each use.
    fn count(&mut self, severity: u8, since: u32, length: u32) -> bool
        requires { severity ≤ 63 }
        ensures answer { result ≡ due self.old severity since length }
        ensures counted { self.new ≡ after self.old (due self.old severity since length) };

    ghost small: { gap < 2 ^ 32 };

    // A frame is a sample where the bytes would pass the gap.
    ghost in_time: { (x : Self) (severity since length : ℕ) → length ≤ 2000 → gap < since + length → due x severity since length ≡ true };
}
