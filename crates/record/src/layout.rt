// The byte at which each field begins, and the numbers that the format fixes.
pub const VERSION_AT: usize = 2;

pub const STATION_AT: usize = 3;

pub const FLOW_AT: usize = 9;

pub const VALUE_AT: usize = 13;

pub const SIZE: usize = 14;
// The bytes after the count, which is two bytes wide.
pub const COUNTED: u16 = 12;

pub const VERSION: u8 = 1;
// Feedback has six bits.
pub const GREATEST: u8 = 63;
