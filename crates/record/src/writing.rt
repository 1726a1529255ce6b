// Writing a record into a buffer of any length.
ghost use Rattle.std.specs.Prelude.{◌≡◌, ◌≤◌, [], ◌∷◌, ◌++◌, length, take, Ok, OnErr, OnOk};
ghost use Rattle.record.specs.Decoded.{decoded};
ghost use Rattle.record.specs.Encoded.{encoded, answered, written};
ghost use Rattle.record.specs.Layout.{size, version, greatest, bytes_from};

use crate::Record;
use crate::faults::WriteFault;
use crate::layout::{COUNTED, GREATEST, SIZE, VERSION};

// Writes the record over the first bytes of `out`, and answers how many they are.
pub fn write(record: &Record, out: &mut [u8]) -> Result<usize, WriteFault>
    ensures answer { result ≡ answered «record».now (length out.old) }
    ensures after { out.new ≡ written «record».now out.old }
    ensures refused { OnErr result (out.new ≡ out.old) }
    ensures law { OnOk result (decoded (take size out.new) ≡ Ok «record».now) }
{
    if record.value > GREATEST {
        return Err(WriteFault::Value);
    }
    if out.len() < SIZE {
        return Err(WriteFault::Room);
    }
    let bytes = encode(record);
    out[0..SIZE].copy_from_slice(&bytes);
    Ok(SIZE)
}

// The bytes of a record, of which reading gives the record again.
fn encode(record: &Record) -> [u8; SIZE]
    ensures answer { result ≡ encoded «record».now }
    ensures law { «record».now.value ≤ greatest → decoded result ≡ Ok «record».now }
{
    let count = COUNTED.to_be_bytes();
    let flow = record.flow.to_be_bytes();
    joined(count, record.station, flow, record.value)
}

// The fields one after the other, by place, as the layout names them.
fn joined(count: [u8; 2], station: [u8; 6], flow: [u8; 4], value: u8) -> [u8; SIZE]
    ensures answer { result ≡ bytes_from 0 2 count ++ version ∷ (bytes_from 0 6 station ++ (bytes_from 0 4 flow ++ value ∷ [])) }
{
    let [c0, c1] = count;
    let [s0, s1, s2, s3, s4, s5] = station;
    let [f0, f1, f2, f3] = flow;
    [
        c0, c1, VERSION, s0, s1, s2, s3, s4, s5, f0, f1, f2, f3, value,
    ]
}
