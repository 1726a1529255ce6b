// What has a text, and the smallest such things: a word, a number and a field.
ghost use Rattle.std.specs.Prelude.{◌≡◌, ℕ, ◌+◌, ◌<◌, ◌≤◌, List, [], ◌∷◌, length, decimal};
ghost use Rattle.text.specs.Lines.{printed_text};
ghost use Rattle.text.specs.Steps.{left_after, pasted};

use crate::printed::{BASE, FLOW, Printed, SLOT};

// Measured first and then put, so that a refusal comes before the first byte. Only this crate names it.
// The buffer and the place stay two parameters: a struct with both could not say that the place is within the buffer.
pub trait Printable {
    // The bytes that are printed.
    ghost text: { Self → List ℕ };

    // The room that the text leaves, or none where it does not fit.
    fn left_after(&self, room: usize) -> Option<usize>
        ensures answer { result ≡ left_after (text self.now) room };

    // Puts the text at its place, and answers the place behind it.
    fn put(&self, out: &mut [u8], at: usize) -> usize
        requires { at + length (text self.now) ≤ length out.old }
        ensures answer { result ≡ at + length (text self.now) }
        ensures after { out.new ≡ pasted out.old at (text self.now) };
}

// The bytes as they are.
impl<const N: usize> Printable for [u8; N] {
    ghost text = { λ word. word };

    fn left_after(&self, room: usize) -> Option<usize> {
        room.checked_sub(N)
    }

    fn put(&self, out: &mut [u8], at: usize) -> usize {
        let end = at + N;
        out[at..end].copy_from_slice(self);
        end
    }
}

// The digit that writes a number below ten.
fn digit(n: u64) -> [u8; 1]
    requires { n < 10 }
    ensures answer { result ≡ (48 + n) ∷ [] }
{
    [b'0' + n as u8]
}

// How many digits a number has: at most 20. So the room is asked once for a number, and not once for each digit.
fn digits(n: u64) -> usize
    ensures answer { result ≡ length (decimal n) }
{
    if n < BASE {
        return 1;
    }
    digits(n / BASE) + 1
}

// In decimal, the digits before the last one first.
// By hand: two short recursions, where the library's `itoa` would be one thing more to trust.
impl Printable for u64 {
    ghost text = { decimal };

    fn left_after(&self, room: usize) -> Option<usize> {
        room.checked_sub(digits(*self))
    }

    fn put(&self, out: &mut [u8], at: usize) -> usize {
        let n = *self;
        if n < BASE {
            return digit(n).put(out, at);
        }
        let last = (n / BASE).put(out, at);
        digit(n % BASE).put(out, last)
    }
}

impl Printable for Printed {
    ghost text = { printed_text };

    fn left_after(&self, room: usize) -> Option<usize> {
        match *self {
            Printed::Number(n) => n.left_after(room),
            Printed::Letter(c) => [c].left_after(room),
            Printed::SlotHeading => SLOT.left_after(room),
            Printed::FlowHeading => FLOW.left_after(room),
        }
    }

    fn put(&self, out: &mut [u8], at: usize) -> usize {
        match *self {
            Printed::Number(n) => n.put(out, at),
            Printed::Letter(c) => [c].put(out, at),
            Printed::SlotHeading => SLOT.put(out, at),
            Printed::FlowHeading => FLOW.put(out, at),
        }
    }
}
