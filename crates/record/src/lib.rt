// The feedback record that a switch sends: 14 bytes, read and written by one layout.
// `layout` has the places and limits, `reading` and `writing` the two calls, `faults` why they refuse.
#![tactic(auto)]

mod faults;
mod layout;
mod reading;
mod writing;

pub use faults::{ReadFault, WriteFault};
pub use layout::SIZE;
pub use reading::read;
pub use writing::write;

// What a switch says of one flow.
#[derive(Clone, Copy)]
pub struct Record {
    // The station address of the switch.
    pub station: [u8; 6],
    pub flow: u32,
    // The quantized feedback, at most 63 where the record is accepted.
    pub value: u8,
}
