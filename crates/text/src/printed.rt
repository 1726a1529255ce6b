// What a printed line is made of.

// One field of a printed line.
#[derive(Clone, Copy)]
pub enum Printed {
    // In decimal, with no zeros before it.
    Number(u64),
    // The byte as it is.
    Letter(u8),
    // The words over the two columns of a table.
    SlotHeading,
    FlowHeading,
}

// Between two fields of a line.
pub(crate) const SPACE: [u8; 1] = *b" ";
// Behind the last field of a line.
pub(crate) const NEWLINE: [u8; 1] = *b"\n";
// The words over the two columns.
pub(crate) const SLOT: [u8; 4] = *b"slot";

pub(crate) const FLOW: [u8; 4] = *b"flow";
// Of the numbers.
pub(crate) const BASE: u64 = 10;
