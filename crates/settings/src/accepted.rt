ghost use Rattle.settings.specs.Ranges.{In};
ghost use Rattle.settings.specs.declared.fault.SettingsFault.TheVariants.{LineRate, Gain, StepA, StepB, Period, ByteLimit, SetPoint, Weight};

use crate::figures::Figures;

pub mod making;
pub mod reading;

// Accepted settings: each of the eight numbers is within its range for as long as they exist.
#[derive(Clone, Copy)]
pub struct Settings {
    figures: Figures,
    ghost line_rate_in: { In LineRate figures },
    ghost gain_in: { In Gain figures },
    ghost step_a_in: { In StepA figures },
    ghost step_b_in: { In StepB figures },
    ghost period_in: { In Period figures },
    ghost byte_limit_in: { In ByteLimit figures },
    ghost set_point_in: { In SetPoint figures },
    ghost weight_in: { In Weight figures },
}
