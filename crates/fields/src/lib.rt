// Reading a line of text, as bytes: its fields, and the numbers that a field writes.
// `cutting` takes one field off a text, `line` has all fields of one, `places` finds one of them, `decimals` reads a
// decimal number, `hexadecimals` reads bytes that are written as hexadecimal digits, and `failure` is why a call gave
// nothing.
#![tactic(auto)]

mod cutting;
mod decimals;
mod failure;
mod hexadecimals;
mod line;
mod places;

pub use cutting::{Piece, cut};
pub use decimals::decimal;
pub use failure::Failure;
pub use hexadecimals::{NoDigits, are_hex, hex_bytes, hex_digit};
pub use line::{Fields, split};
pub use places::{field_at, field_count};
