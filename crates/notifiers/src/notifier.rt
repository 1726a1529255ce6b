ghost use Rattle.std.specs.Prelude.{◌≡◌, ◌+◌, ◌<◌, Bool, true, false};
ghost use Rattle.notifiers.specs.Meter.{Meter, lawful, moved, answered};
ghost use Rattle.notifiers.specs.declared.shown.Shown.{Shown as Frame};

use crate::shown::{Showing, Shown};

// What watches the queue. Only whether to sample is a notifier's own choice.
pub trait Notifier: Sized {
    ghost meter: { Self → Meter };

    // Whether it samples a frame.
    ghost samples: { Self → Frame → Bool };

    // The notifier after a frame.
    ghost next: { Self → Frame → Self };

    // Called for each accepted frame, once it waits.
    fn show(&mut self, shown: Shown) -> Showing
        ensures answer { result ≡ answered (meter self.old) shown (samples self.old shown) }
        ensures after { self.new ≡ next self.old shown };

    fn set_point(&self) -> u32
        ensures answer { result ≡ (meter self.now).set_point };

    fn weight(&self) -> u32
        ensures answer { result ≡ (meter self.now).weight };

    // The pages at the last sample.
    fn old(&self) -> u32
        ensures answer { result ≡ (meter self.now).old };

    // It samples where the bytes since the last sample would pass the gap.
    ghost due: { (x : Self) (s : Frame) → lawful s ≡ true → (meter x).gap < (meter x).since + s.length → samples x s ≡ true };

    ghost moves: { (x : Self) (s : Frame) → meter (next x s) ≡ moved (meter x) s (samples x s) };

    ghost alone: { (x : Self) (s : Frame) → lawful s ≡ false → next x s ≡ x };
}
