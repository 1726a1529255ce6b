use rates::rate_rule::RateRule;
use rates::rates::{Rates, Stages};
use rates::regime::Regime;
use rates::rung_rule::RungRule;
use settings::accepted::Settings;
use settings::figures::Figures;
use std::test::Fail;

const LINE_RATE: u32 = 10_000_000;

// Written out, though other crates' examples have the like: the rates below are reckoned from these eight.
fn settings(line_rate: u32) -> Result<Settings, Fail> {
    Settings::accept(Figures {
        line_rate,
        gain: 8,
        step_a: 5_000,
        step_b: 50_000,
        period: 1_000,
        byte_limit: 150_000,
        set_point: 16,
        weight: 2,
    })
    .map_err(|_| Fail::new("the settings are refused"))
}

fn rule() -> Result<RungRule, Fail> {
    Ok(RungRule::new(settings(LINE_RATE)?))
}

// Gain 8: value 1 leaves 1016/1024 of a rate, value 63 leaves 520/1024. Rungs: 10,048 and 10,205 begin the first
// octave (steps of 157), 19,939 ends it, 20,096 begins the second. In the ninth the step is 40,192, in the tenth 80,384.
//    10,048: the floor stays. 10,047 is below it and comes back, as does 10,000,001 above the line rate.
//    10,205, 1: 10,125 is left, so at least 10,205; below it 10,048.
//    10,206, 1: 10,126 is left, so at least 10,205; below it 10,205.
//    20,096, 1: 19,939 is left, a rung; below it 19,939.        20,097, 1: 19,939 is left; below it 20,096.
//    20,096, 63: 10,205 is left, a rung; below it 19,939.
//    10,000,000, 1: 9,921,875 is left, so 124 x 80,384 = 9,967,616; below it the same.
//    10,000,000, 63: 5,078,125 is left, so 127 x 40,192 = 5,104,384; below it 9,967,616.
const CUTS: [(u32, u8, u32); 10] = [
    (10_048, 63, 10_048),
    (10_047, 63, 10_047),
    (10_000_001, 1, 10_000_001),
    (10_205, 1, 10_048),
    (10_206, 1, 10_205),
    (20_096, 1, 19_939),
    (20_097, 1, 19_939),
    (20_096, 63, 10_205),
    (10_000_000, 1, 9_967_616),
    (10_000_000, 63, 5_104_384),
];

#[test]
fn cuts(rt: HostRuntime) -> Result<(), Fail> {
    let rule = rule()?;
    for (current, value, after) in CUTS {
        assert_eq!(rt; rule.cut(LINE_RATE, current, value), after);
    }
    Ok(())
}

// At byte stage 2 nothing is added to the target, so the standard rule goes half way to it, and then down to a rung.
//    10,048 to 10,048: stays.          10,048 to 10,362: half way is 10,205.      10,048 to 10,361: 10,204, so 10,048.
//    19,939 to 20,253: 20,096.         20,000 to 20,100: 20,050, so 19,939, but never lower than 20,000.
//    9,967,616 to 10,032,384: 10,000,000, the line rate.      to 10,032,382: 9,999,999, so 9,967,616.
//    10,047 is below the floor and comes back with its target.
const RAISES: [(u32, u32, u32); 8] = [
    (10_048, 10_048, 10_048),
    (10_048, 10_362, 10_205),
    (10_048, 10_361, 10_048),
    (19_939, 20_253, 20_096),
    (20_000, 20_100, 20_000),
    (9_967_616, 10_032_384, 10_000_000),
    (9_967_616, 10_032_382, 9_967_616),
    (10_047, 20_000, 10_047),
];

#[test]
fn raises(rt: HostRuntime) -> Result<(), Fail> {
    let rule = rule()?;
    for (current, target, after) in RAISES {
        let raised = rule.raise(
            LINE_RATE,
            Rates { current, target },
            Stages { byte: 2, timer: 0 },
        );
        assert_eq!(rt; raised.current, after);
        assert_eq!(rt; raised.target, target);
    }
    Ok(())
}

// One rule, lent to two lines: at the slower one 10,000,000 is above the line rate, and comes back.
#[test]
fn lent_to_two_lines(rt: HostRuntime) -> Result<(), Fail> {
    let rule = rule()?;
    let fast = Regime {
        rule: &rule,
        settings: settings(LINE_RATE)?,
    };
    let slow = Regime {
        rule: &rule,
        settings: settings(1_000_000)?,
    };
    assert_eq!(rt; fast.cut(10_000_000, 1), 9_967_616);
    assert_eq!(rt; slow.cut(10_000_000, 1), 10_000_000);
    Ok(())
}
