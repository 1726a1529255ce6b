// Texts that are made of others: two, one behind the other; many with the same word before each; lines and tables.
ghost use Rattle.std.specs.Prelude.{◌++◌};
ghost use Rattle.std.specs.List.{flat_map};
ghost use Rattle.text.specs.Lines.{line_text, table_text};

use crate::printable::Printable;
use crate::printed::{NEWLINE, Printed, SPACE};

// One behind the other.
impl<A: Printable, B: Printable> Printable for (A, B) {
    ghost text = { λ pair. A.text pair.0 ++ B.text pair.1 };

    fn left_after(&self, room: usize) -> Option<usize> {
        self.1.left_after(self.0.left_after(room)?)
    }

    fn put(&self, out: &mut [u8], at: usize) -> usize {
        let end = self.0.put(out, at);
        self.1.put(out, end)
    }
}

// All the items, one behind another, and the same text before each of them.
#[derive(Clone, Copy)]
struct EachBehind<'a, B, T>(B, &'a [T]);

impl<B: Printable + Copy, T: Printable + Copy> Printable for EachBehind<'_, B, T> {
    ghost text = { λ each. flat_map (λ item. B.text each.0 ++ T.text item) each.1.now };

    // A loop, as in `put`: with `try_fold` the proof did not close.
    fn left_after(&self, room: usize) -> Option<usize> {
        let mut left = room;
        for item in self.1 {
            left = (self.0, *item).left_after(left)?;
        }
        Some(left)
    }

    fn put(&self, out: &mut [u8], at: usize) -> usize {
        let mut end = at;
        for item in self.1 {
            end = (self.0, *item).put(out, end);
        }
        end
    }
}

// The fields with a space between two of them, and a newline.
#[derive(Clone, Copy)]
pub struct Line<'a>(pub &'a [Printed]);

impl Printable for Line<'_> {
    ghost text = { λ line. line_text line.0.now };

    fn left_after(&self, room: usize) -> Option<usize> {
        match self.0.split_first() {
            None => NEWLINE.left_after(room),
            Some((first, rest)) => { (*first, (EachBehind(SPACE, rest), NEWLINE)).left_after(room) }
        }
    }

    fn put(&self, out: &mut [u8], at: usize) -> usize {
        match self.0.split_first() {
            None => NEWLINE.put(out, at),
            Some((first, rest)) => (*first, (EachBehind(SPACE, rest), NEWLINE)).put(out, at),
        }
    }
}

// Each row is a line. It has two columns: that a row of any number fits in memory was not to be shown.
impl Printable for [Printed; 2] {
    ghost text = { line_text };

    fn left_after(&self, room: usize) -> Option<usize> {
        Line(self).left_after(room)
    }

    fn put(&self, out: &mut [u8], at: usize) -> usize {
        Line(self).put(out, at)
    }
}

// The rows, one behind another.
#[derive(Clone, Copy)]
pub struct Table<'a>(pub &'a [[Printed; 2]]);

impl Printable for Table<'_> {
    ghost text = { λ table. table_text table.0.now };

    fn left_after(&self, room: usize) -> Option<usize> {
        EachBehind([], self.0).left_after(room)
    }

    fn put(&self, out: &mut [u8], at: usize) -> usize {
        EachBehind([], self.0).put(out, at)
    }
}
