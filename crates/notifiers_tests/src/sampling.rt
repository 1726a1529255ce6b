use notifiers::bytes::Bytes;
use notifiers::frames::Frames;
use notifiers::notifier::Notifier;
use notifiers::severity::severity;
use notifiers::shown::{Showing, Shown};
use settings::accepted::Settings;
use settings::figures::Figures;
use std::test::Fail;

// Written out, though other crates' examples have the like: the numbers below are reckoned from these eight.
fn settings(set_point: u32, weight: u32) -> Result<Settings, Fail> {
    Settings::accept(Figures {
        line_rate: 1_000_000,
        gain: 8,
        step_a: 5_000,
        step_b: 50_000,
        period: 1_000,
        byte_limit: 150_000,
        set_point,
        weight,
    })
    .map_err(|_| Fail::new("the settings are refused"))
}

// A frame that waits alone, as the last sample's did or none: below the set point, so severity 0.
fn calm(length: u32) -> Shown {
    Shown {
        pages: 1,
        length,
        mark: 0,
    }
}

// Since is 150,000 after 75 frames of 2,000 bytes: the next is no sample, and the one after it is.
#[test]
fn a_period_is_not_passed_at_its_end(rt: HostRuntime) -> Result<(), Fail> {
    let mut notifier = Bytes::new(settings(16, 2)?);
    for _ in 0..76u32 {
        assert!(rt; matches!(notifier.show(calm(2_000)), Showing::Unsampled));
    }
    assert!(rt; matches!(notifier.show(calm(2_000)), Showing::Quiet));
    Ok(())
}

// 74 x 2,000 + 1,937 + 64 = 150,001, which is above the period.
#[test]
fn a_period_is_passed_by_one_byte(rt: HostRuntime) -> Result<(), Fail> {
    let mut notifier = Bytes::new(settings(16, 2)?);
    for _ in 0..74u32 {
        assert!(rt; matches!(notifier.show(calm(2_000)), Showing::Unsampled));
    }
    assert!(rt; matches!(notifier.show(calm(1_937)), Showing::Unsampled));
    assert!(rt; matches!(notifier.show(calm(64)), Showing::Unsampled));
    assert!(rt; matches!(notifier.show(calm(64)), Showing::Quiet));
    Ok(())
}

// At severity 0 a sample is due with 6,400 / 64 = 100 frames.
#[test]
fn the_hundredth_frame_is_sampled(rt: HostRuntime) -> Result<(), Fail> {
    let mut notifier = Frames::new(settings(16, 2)?);
    for _ in 0..99u32 {
        assert!(rt; matches!(notifier.show(calm(64)), Showing::Unsampled));
    }
    assert!(rt; matches!(notifier.show(calm(64)), Showing::Quiet));
    Ok(())
}

// Set point 21 and weight 1: M is 63, of six digits, so the severity is the pages above 21 where the queue stands still.
const EDGES: [(u32, u8); 17] = [
    (21, 0),
    (28, 7),
    (29, 8),
    (36, 15),
    (37, 16),
    (44, 23),
    (45, 24),
    (52, 31),
    (53, 32),
    (60, 39),
    (61, 40),
    (68, 47),
    (69, 48),
    (76, 55),
    (77, 56),
    (84, 63),
    (85, 63),
];

#[test]
fn severity_at_the_edges_of_each_eighth(rt: HostRuntime) -> Result<(), Fail> {
    let settings = settings(21, 1)?;
    for (pages, expected) in EDGES {
        assert_eq!(rt; severity(&settings, pages, pages), expected);
    }
    Ok(())
}
