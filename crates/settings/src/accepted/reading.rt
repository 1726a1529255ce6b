ghost use Rattle.std.specs.Prelude.{◌≡◌};
ghost use Rattle.settings.specs.Ranges.{In};
ghost use Rattle.settings.specs.declared.fault.SettingsFault.TheVariants.{LineRate, Gain, StepA, StepB, Period, ByteLimit, SetPoint, Weight};

use crate::accepted::Settings;

// One reader for each number, though they differ in the field alone: a caller is told the range of that one.
impl Settings {
    // C, kbit/s.
    pub fn line_rate(&self) -> u32
        ensures answer { result ≡ self.now.figures.line_rate }
        ensures range { In LineRate self.now.figures }
    {
        self.figures.line_rate
    }

    // 1/1024.
    pub fn gain(&self) -> u32
        ensures answer { result ≡ self.now.figures.gain }
        ensures range { In Gain self.now.figures }
    {
        self.figures.gain
    }

    // A, kbit/s.
    pub fn step_a(&self) -> u32
        ensures answer { result ≡ self.now.figures.step_a }
        ensures range { In StepA self.now.figures }
    {
        self.figures.step_a
    }

    // B, kbit/s.
    pub fn step_b(&self) -> u32
        ensures answer { result ≡ self.now.figures.step_b }
        ensures range { In StepB self.now.figures }
    {
        self.figures.step_b
    }

    // µs.
    pub fn period(&self) -> u32
        ensures answer { result ≡ self.now.figures.period }
        ensures range { In Period self.now.figures }
    {
        self.figures.period
    }

    // Bytes.
    pub fn byte_limit(&self) -> u32
        ensures answer { result ≡ self.now.figures.byte_limit }
        ensures range { In ByteLimit self.now.figures }
    {
        self.figures.byte_limit
    }

    // Q, pages.
    pub fn set_point(&self) -> u32
        ensures answer { result ≡ self.now.figures.set_point }
        ensures range { In SetPoint self.now.figures }
    {
        self.figures.set_point
    }

    // W.
    pub fn weight(&self) -> u32
        ensures answer { result ≡ self.now.figures.weight }
        ensures range { In Weight self.now.figures }
    {
        self.figures.weight
    }
}
