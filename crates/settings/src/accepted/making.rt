ghost use Rattle.std.specs.Prelude.{◌≡◌, ◌≤◌, ◌&&◌, if◌then◌else◌, nat_le, Ok, Err, OnOk};
ghost use Rattle.settings.specs.Judged.{judged, told, FirstFault};

use crate::accepted::Settings;
use crate::fault::SettingsFault;
use crate::figures::Figures;

// The slowest and the fastest line, kbit/s.
pub const SLOWEST: u32 = 100_000;

pub const FASTEST: u32 = 10_000_000;

// Whether a figure is in its range: its setting is the fault where it is not.
fn within(setting: SettingsFault, least: u32, figure: u32, most: u32) -> Result<(), SettingsFault>
    ensures answer { result ≡ (if nat_le least figure && nat_le figure most then Ok tt else Err setting) }
    ensures inside { OnOk result ((least ≤ figure) × (figure ≤ most)) }
{
    if least <= figure && figure <= most {
        Ok(())
    } else {
        Err(setting)
    }
}

impl Settings {
    // Accepts eight numbers that are all in range; refuses the first that is not. `accept`, as the settings' rule says:
    // `try_from` would not tell that ranges are tested.
    pub fn accept(figures: Figures) -> Result<Settings, SettingsFault>
        ensures answer { told result ≡ judged figures }
        ensures law { FirstFault figures (told result) }
    {
        within(SettingsFault::LineRate, SLOWEST, figures.line_rate, FASTEST)?;
        within(SettingsFault::Gain, 1, figures.gain, 32)?;
        within(SettingsFault::StepA, 1, figures.step_a, 100_000)?;
        within(
            SettingsFault::StepB,
            figures.step_a,
            figures.step_b,
            1_000_000,
        )?;
        within(SettingsFault::Period, 100, figures.period, 100_000)?;
        within(
            SettingsFault::ByteLimit,
            10_000,
            figures.byte_limit,
            1_000_000,
        )?;
        within(SettingsFault::SetPoint, 16, figures.set_point, 512)?;
        within(SettingsFault::Weight, 1, figures.weight, 8)?;
        Ok(Settings { figures })
    }
}
