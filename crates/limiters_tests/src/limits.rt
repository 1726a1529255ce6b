use limiters::limiter::{Identity, Limiter, Row};
use limiters::table::Table;
use rates::rates::{Rates, Stages};
use rates::regime::Regime;
use rates::standard::Standard;
use settings::accepted::Settings;
use settings::figures::Figures;
use std::test::Fail;

// Written out, though other crates' examples have the like: the numbers below are reckoned from these eight.
fn settings() -> Result<Settings, Fail> {
    Settings::accept(Figures {
        line_rate: 1_000_000,
        gain: 8,
        step_a: 5_000,
        step_b: 50_000,
        period: 100,
        byte_limit: 150_000,
        set_point: 16,
        weight: 2,
    })
    .map_err(|_| Fail::new("the settings are refused"))
}

fn regime() -> Result<Regime<Standard>, Fail> {
    let settings = settings()?;
    Ok(Regime {
        rule: Standard::new(settings),
        settings,
    })
}

fn slowed(credit: u32, timer_stage: u8) -> Limiter {
    Limiter::InService(Row {
        serves: Identity { flow: 7 },
        rates: Rates {
            current: 500_000,
            target: 1_000_000,
        },
        stages: Stages {
            byte: 0,
            timer: timer_stage,
        },
        byte_count: 0,
        time_left: 100,
        credit,
        held: 0,
    })
}

// 64 bytes are charged 512,000.
#[test]
fn credit_for_64_bytes(rt: HostRuntime) -> Result<(), Fail> {
    let settings = settings()?;
    assert!(rt; !slowed(511_999, 0).may_pass(&settings, 64));
    assert!(rt; slowed(512_000, 0).may_pass(&settings, 64));
    Ok(())
}

#[test]
fn a_stage_stops_at_255(rt: HostRuntime) -> Result<(), Fail> {
    let mut limiter = slowed(0, 254);
    assert_eq!(rt; limiter.wait(&regime()?, 150), 2);
    match limiter {
        Limiter::InService(row) => {
            assert_eq!(rt; row.stages.timer, 255);
            Ok(())
        },
        Limiter::Free => Err(Fail::new("freed")),
    }
}

// Five expiries in the first 500 microseconds, and one each 50 after them: 5 + 999,500 / 50 = 19,995 for each of 64.
#[test]
fn a_second_for_64_limiters(rt: HostRuntime) -> Result<(), Fail> {
    let regime = regime()?;
    let mut table = Table::new();
    for flow in 0..64u32 {
        assert!(rt; table.notice(&regime, Identity { flow }, 32).is_some());
    }
    assert!(rt; table.notice(&regime, Identity { flow: 64 }, 32).is_none());
    assert_eq!(rt; table.wait(&regime, 1_000_000), 1_279_680);
    Ok(())
}
