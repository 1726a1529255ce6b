// Reading a record from any number of bytes.
ghost use Rattle.std.specs.Prelude.{◌≡◌, ◌≤◌, length, IfOk};
ghost use Rattle.record.specs.Decoded.{decoded, fields};
ghost use Rattle.record.specs.Encoded.{encoded};
ghost use Rattle.record.specs.Layout.{count_field, version_field, size, counted, version, greatest, field, byte, number};

use crate::Record;
use crate::faults::ReadFault;
use crate::layout::{COUNTED, FLOW_AT, GREATEST, STATION_AT, VALUE_AT, VERSION, VERSION_AT};

// The record that the bytes are, or the first fault that they have.
// The count ends where the version begins, and the version where the station does.
// `read` and not `try_from`, since it is the other half of `write`.
pub fn read(bytes: &[u8]) -> Result<Record, ReadFault>
    ensures answer { result ≡ decoded bytes.now }
    ensures law { IfOk result (λ x. (encoded x ≡ bytes.now) × (x.value ≤ greatest)) }
{
    if bytes.len() < VERSION_AT {
        return Err(ReadFault::Length);
    }
    let count = count_of(bytes);
    if count as usize != bytes.len() - VERSION_AT {
        return Err(ReadFault::Length);
    }
    if bytes.len() < STATION_AT || bytes[VERSION_AT] != VERSION {
        return Err(ReadFault::Version);
    }
    if count != COUNTED {
        return Err(ReadFault::Count);
    }
    if bytes[VALUE_AT] > GREATEST {
        return Err(ReadFault::Value);
    }
    Ok(fields_of(bytes))
}

fn count_of(bytes: &[u8]) -> u16
    requires { count_field.width ≤ length bytes.now }
    ensures answer { result ≡ number (field count_field bytes.now) }
{
    u16::from_be_bytes([bytes[0], bytes[1]])
}

// The fields of bytes that were found to be a record's, but for the value.
fn fields_of(bytes: &[u8]) -> Record
    requires long { length bytes.now ≡ size }
    requires count { number (field count_field bytes.now) ≡ counted }
    requires first { byte version_field bytes.now ≡ version }
    ensures answer { result ≡ fields bytes.now }
    ensures law { encoded result ≡ bytes.now }
{
    Record {
        station: station_of(bytes),
        flow: flow_of(bytes),
        value: bytes[VALUE_AT],
    }
}

// By place, as the layout names them.
fn station_of(bytes: &[u8]) -> [u8; 6]
    requires { size ≤ length bytes.now }
    ensures answer { result ≡ (fields bytes.now).station }
{
    [
        bytes[STATION_AT],
        bytes[STATION_AT + 1],
        bytes[STATION_AT + 2],
        bytes[STATION_AT + 3],
        bytes[STATION_AT + 4],
        bytes[STATION_AT + 5],
    ]
}

fn flow_of(bytes: &[u8]) -> u32
    requires { size ≤ length bytes.now }
    ensures answer { result ≡ (fields bytes.now).flow }
{
    u32::from_be_bytes([
        bytes[FLOW_AT],
        bytes[FLOW_AT + 1],
        bytes[FLOW_AT + 2],
        bytes[FLOW_AT + 3],
    ])
}
