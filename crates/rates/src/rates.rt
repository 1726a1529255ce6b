// A limiter's two rates, kbit/s: the one it keeps to, and the one it rises towards.
#[derive(Clone, Copy)]
pub struct Rates {
    pub current: u32,
    pub target: u32,
}

// How often each of a limiter's two counters has run out since the last notice.
#[derive(Clone, Copy)]
pub struct Stages {
    pub byte: u8,
    pub timer: u8,
}
