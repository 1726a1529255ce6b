use record::{Record, write};
use report::telling::answer;
use std::alloc::Global;
use std::process::Abort;
use std::test::Fail;

// The first line of the answer to a line of settings and a line with a record.
fn starts(rt: &impl Abort, heap: Global, input: &str, line: &str) -> Result<(), Fail> {
    let text = answer(heap, input.as_bytes())?;
    assert!(rt; text.as_str().starts_with(line), "{}", input);
    Ok(())
}

// Each refusal number once, and records of 0, 1, 2, 3, 13, 14 and 15 bytes.
const REFUSED: [(&str, &str); 22] = [
    ("1 2 3\n", "refused 41: the first line has"),
    ("", "refused 41: the first line has"),
    (
        "1000000 8 5000 50000 1000 150000 16 2 q q\n",
        "refused 41: the first line has",
    ),
    (
        "1000000 8 5000 50000 1000 150000 16 2 x\n",
        "refused 40: the ninth field",
    ),
    (
        "1000000 8 5000 x 1000 150000 16 2\n",
        "refused 42: step B is not 1 to 10 digits",
    ),
    (
        "4294967296 8 5000 50000 1000 150000 16 2\n",
        "refused 42: the line rate is not 1 to 10 digits",
    ),
    (
        "99999 8 5000 50000 1000 150000 16 2\n",
        "refused 1: the line rate",
    ),
    (
        "1000000 33 5000 50000 1000 150000 16 2\n",
        "refused 2: the gain",
    ),
    ("1000000 8 0 50000 1000 150000 16 2\n", "refused 3: step A"),
    (
        "1000000 8 5000 4999 1000 150000 16 2\n",
        "refused 3: step B",
    ),
    (
        "1000000 8 5000 50000 99 150000 16 2\n",
        "refused 4: the timer period",
    ),
    (
        "1000000 8 5000 50000 1000 1000001 16 2\n",
        "refused 4: the byte limit",
    ),
    (
        "1000000 8 5000 50000 1000 150000 15 2\n",
        "refused 5: the set point",
    ),
    (
        "1000000 8 5000 50000 1000 150000 16 9\n",
        "refused 5: the weight",
    ),
    (
        "1000000 8 5000 50000 1000 150000 16 2\n000c01020000000001000000072",
        "refused 43: the second line",
    ),
    (
        "1000000 8 5000 50000 1000 150000 16 2\n",
        "refused 30: the record",
    ),
    (
        "1000000 8 5000 50000 1000 150000 16 2\n00",
        "refused 30: the record",
    ),
    (
        "1000000 8 5000 50000 1000 150000 16 2\n0000",
        "refused 31: the record",
    ),
    (
        "1000000 8 5000 50000 1000 150000 16 2\n000101",
        "refused 32: the record",
    ),
    (
        "1000000 8 5000 50000 1000 150000 16 2\n000c0102000000000100000007",
        "refused 30: the record",
    ),
    (
        "1000000 8 5000 50000 1000 150000 16 2\n000c01020000000001000000072000",
        "refused 30: the record",
    ),
    (
        "1000000 8 5000 50000 1000 150000 16 2\n000c010200000000010000000740",
        "refused 33: the record",
    ),
];

#[test]
fn refusals(rt: HostRuntime) -> Result<(), Fail> {
    for (input, line) in REFUSED {
        starts(&rt, rt.alloc(), input, line)?;
    }
    Ok(())
}

// A cut to 753,600 = 75 x 10,048: 750,000 is left. Half way to the target is 876,800, so 874,176 = 87 x 10,048.
#[test]
fn by_rungs(rt: HostRuntime) -> Result<(), Fail> {
    starts(
        &rt,
        rt.alloc(),
        "1000000 8 5000 50000 1000 150000 16 2 g\n000c010200000000010000000720\n",
        "record: switch 02:00:00:00:00:01, flow 7, value 32\ncurrent rate: 1000000 kbit/s before the notice, 753600 kbit/s after it\nexpiry time_us stage current_kbit/s target_kbit/s\n1 1000 1 874176 1000000\n",
    )
}

// The last rung below the line rate is left only by a target above 10,032,383, and step A adds 1 for each expiry.
#[test]
fn the_bound_is_told(rt: HostRuntime) -> Result<(), Fail> {
    let text = answer(
        rt.alloc(),
        b"10000000 8 1 1 1000 150000 16 2 g\n000c010200000000010000000720\n",
    )?;
    assert!(rt;
        text.as_str().ends_with(
            "\nstopped at the bound, not back at the line rate after 1000 expiries, 502500 us after the notice\n",
        )
    );
    Ok(())
}

#[test]
fn value_zero_is_ignored(rt: HostRuntime) -> Result<(), Fail> {
    let text = answer(
        rt.alloc(),
        b"1000000 8 5000 50000 1000 150000 16 2\n000C010200000000010000000700\n",
    )?;
    assert_eq!(rt;
        text.as_str(),
        "record: switch 02:00:00:00:00:01, flow 7, value 0\nvalue 0 is ignored: the flow stays at its rate\n"
    );
    Ok(())
}

#[test]
fn no_room_for_a_record(rt: HostRuntime) -> Result<(), Fail> {
    let mut out = [7u8; 13];
    let said = Record {
        station: [2, 0, 0, 0, 0, 1],
        flow: 7,
        value: 32,
    };
    let Err(fault) = write(&said, &mut out) else {
        return Err(Fail::new("written"));
    };
    assert_eq!(rt; fault.number(), 44);
    assert_eq!(rt; out[0], 7);
    Ok(())
}
