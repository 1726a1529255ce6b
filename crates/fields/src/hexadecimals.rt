// Bytes, as a field writes them: two hexadecimal digits for each.
ghost use Rattle.fields.specs.Hexadecimals.{hex_digit_of, byte_of, hex_of, Written};
ghost use Rattle.std.specs.Prelude.{◌≡◌, true, is_some};

use crate::failure::Failure;
use std::alloc::Global;

const BASE: u8 = 16;

const DIGITS_OF_A_BYTE: usize = 2;

// The digits write no bytes: they are odd in number, or one is no hexadecimal digit.
#[derive(Clone, Copy, PartialEq, Eq, Debug, Drop)]
pub struct NoDigits;

// The value of a hexadecimal digit, in either case. It is a u8, as the byte that it is part of; `to_digit` gives a u32.
pub fn hex_digit(c: u8) -> Option<u8>
    ensures answer { result ≡ hex_digit_of c }
{
    match c {
        b'0'..=b'9' => Some(c - b'0'),
        b'a'..=b'f' => Some(c - b'a' + 10),
        b'A'..=b'F' => Some(c - b'A' + 10),
        _ => None,
    }
}

fn hex_byte(high: u8, low: u8) -> Option<u8>
    ensures answer { result ≡ byte_of high low }
{
    Some(hex_digit(high)? * BASE + hex_digit(low)?)
}

// Whether digits write bytes: they are even in number, and each is a hexadecimal digit.
pub fn are_hex(digits: &[u8]) -> bool
    ensures answer { result ≡ is_some (hex_of digits.now) }
{
    digits.len() % DIGITS_OF_A_BYTE == 0 && digits.iter().all(|c| hex_digit(*c).is_some())
}

// The bytes of digits that were judged. The pattern names the two digits of a byte, which a chunk of two would index.
fn read_pairs(heap: Global, digits: &[u8]) -> Result<Vec<u8>, Failure<NoDigits>>
    requires { is_some (hex_of digits.now) ≡ true }
    ensures answer { Written digits.now result }
{
    let mut bytes = Vec::new(heap);
    let mut left = digits;
    while let [high, low, rest @ ..] = left {
        let Some(byte) = hex_byte(*high, *low) else {
            unreachable();
        };
        bytes.push(byte)?;
        left = rest;
    }
    Ok(bytes)
}

// The bytes that digits write, two to a byte and the higher digit first. No digits give no bytes. The digits
// are judged before memory is asked for, so that no fault of theirs is taken for want of memory.
pub fn hex_bytes(heap: Global, digits: &[u8]) -> Result<Vec<u8>, Failure<NoDigits>>
    ensures answer { Written digits.now result }
{
    if !are_hex(digits) {
        return Err(Failure::Refused(NoDigits));
    }
    read_pairs(heap, digits)
}
