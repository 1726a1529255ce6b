// Eight numbers that may or may not be settings.
#[derive(Clone, Copy)]
pub struct Figures {
    // C, kbit/s
    pub line_rate: u32,
    // 1/1024
    pub gain: u32,
    // A, kbit/s: what a target gains when one stage is above the threshold
    pub step_a: u32,
    // B, kbit/s: what it gains for each stage when both are
    pub step_b: u32,
    // µs
    pub period: u32,
    // bytes
    pub byte_limit: u32,
    // Q, pages of 256 bytes
    pub set_point: u32,
    // W
    pub weight: u32,
}
