ghost use Rattle.std.specs.Prelude.{◌≡◌, ◌*◌, ◌≤◌, pos, ◌-ℤ◌, neg_ℤ, ◌≤ℤ◌};
ghost use Rattle.notifiers.specs.Severity.{feedback, most, lack, clamped, quantized, severity};

use settings::accepted::Settings;

// Severity has so many binary digits.
const DIGITS: u32 = 6;

// What the queue is held against, and how it stands.
#[derive(Clone, Copy)]
struct Queue {
    set_point: u32,
    weight: u32,
    // pages waiting, and those at the last sample
    pages: u32,
    old: u32,
    ghost near: { set_point ≤ 512 },
    ghost light: { weight ≤ 8 },
}

impl Queue {
    fn weighted(self, pages: u32) -> u64
        ensures answer { result ≡ self.weight * pages }
        ensures bound { result ≤ 8 * pages }
    {
        self.weight as u64 * pages as u64
    }

    // What the queue has grown since the last sample, times the weight.
    fn growth(self) -> i64
        ensures answer { result ≡ pos (self.weight * self.pages) -ℤ pos (self.weight * self.old) }
        ensures low { neg_ℤ (pos (8 * self.old)) ≤ℤ result }
        ensures high { result ≤ℤ pos (8 * self.pages) }
    {
        self.weighted(self.pages) as i64 - self.weighted(self.old) as i64
    }

    // Fb: how far the queue is below the set point, less its weighted growth.
    fn feedback(self) -> i64
        ensures answer { result ≡ feedback self.set_point self.weight self.pages self.old }
    {
        self.set_point as i64 - self.pages as i64 - self.growth()
    }

    // M, the greatest that −Fb counts for.
    fn greatest(self) -> u32
        ensures answer { result ≡ most self.set_point self.weight }
        ensures bound { result ≤ 8704 }
    {
        self.set_point * (2 * self.weight + 1)
    }

    // −Fb, at least 0 and at most M.
    fn clamped(self) -> u32
        ensures answer { result ≡ clamped (most self.set_point self.weight) (feedback self.set_point self.weight self.pages self.old) }
    {
        (self.greatest() as u64).min(lack(self.feedback())) as u32
    }
}

// −Fb, at least 0.
fn lack(feedback: i64) -> u64
    ensures answer { result ≡ lack feedback }
{
    if feedback < 0 {
        feedback.unsigned_abs()
    } else {
        0
    }
}

// The first six of M's binary digits, of a number that is at most M.
#[tactic(auto, using(crate::proofs::Quantized::quantized_most), unfolding(crate::specs::Severity::quantized))]
fn quantized(most: u32, n: u32) -> u8
    requires { n ≤ most }
    ensures answer { result ≡ quantized most n }
    ensures bound { result ≤ 63 }
{
    let digits = 32 - most.leading_zeros();
    (n >> digits.saturating_sub(DIGITS)) as u8
}

// How severe it is that so many pages wait, where `old` waited at the last sample.
pub fn severity(settings: &Settings, pages: u32, old: u32) -> u8
    ensures answer { result ≡ severity settings.now.figures.set_point settings.now.figures.weight pages old }
    ensures bound { result ≤ 63 }
{
    let queue = Queue {
        set_point: settings.set_point(),
        weight: settings.weight(),
        pages,
        old,
    };
    quantized(queue.greatest(), queue.clamped())
}
