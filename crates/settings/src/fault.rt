ghost use Rattle.std.specs.Prelude.{◌≡◌};
ghost use Rattle.settings.specs.Fault.{refusal};

// The setting that is out of its range.
#[derive(Clone, Copy)]
pub enum SettingsFault {
    LineRate,
    Gain,
    StepA,
    StepB,
    Period,
    ByteLimit,
    SetPoint,
    Weight,
}

impl SettingsFault {
    // The refusal's number.
    pub fn number(self) -> u8
        ensures answer { result ≡ refusal self }
    {
        match self {
            SettingsFault::LineRate => 1,
            SettingsFault::Gain => 2,
            SettingsFault::StepA | SettingsFault::StepB => 3,
            SettingsFault::Period | SettingsFault::ByteLimit => 4,
            SettingsFault::SetPoint | SettingsFault::Weight => 5,
        }
    }
}
