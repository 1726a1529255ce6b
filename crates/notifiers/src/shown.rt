ghost use Rattle.std.specs.Prelude.{◌≡◌};
ghost use Rattle.notifiers.specs.Meter.{lawful};

// The most pages that can wait.
pub const MOST_PAGES: u32 = 2_048;

// The shortest and the longest frame, bytes.
pub const SHORTEST: u32 = 64;

pub const LONGEST: u32 = 2_000;

// The largest mark.
pub const LARGEST_MARK: u8 = 63;

// A frame as a notifier is shown it.
#[derive(Clone, Copy)]
pub struct Shown {
    // pages waiting, this frame included
    pub pages: u32,
    // bytes
    pub length: u32,
    // the held value of the flow's limiter
    pub mark: u8,
}

impl Shown {
    // Whether such a frame can be: others are not looked at.
    pub fn is_lawful(&self) -> bool
        ensures answer { result ≡ lawful self.now }
    {
        self.pages <= MOST_PAGES
            && SHORTEST <= self.length
            && self.length <= LONGEST
            && self.mark <= LARGEST_MARK
    }
}

// What a notifier answers.
#[derive(Clone, Copy)]
pub enum Showing {
    Unsampled,
    // A sample without a notice.
    Quiet,
    // A sample with a notice of this value.
    Notice(u8),
}
