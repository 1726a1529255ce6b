ghost use Rattle.std.specs.Prelude.{◌≡◌, length, IfOk};
ghost use Rattle.std.specs.Result.{result_err};
ghost use Rattle.line.specs.Opening.{matching, in_limits, open_refusal, open_answer, told_open, Opens};

use crate::uplink::{Line, NotOpened};
use limiters::table::Table;
use notifiers::notifier::Notifier;
use rates::rate_rule::RateRule;
use rates::regime::Regime;
use ring::fifo::Ring;
use settings::accepted::Settings;
use tally::fault::OpenFault;
use tally::frame::Frame;
use tally::notice::Notice;

// How many frames and how many notices can wait.
pub const MOST_FRAMES: usize = 256;

pub const MOST_NOTICES: usize = 32;

fn matching<N: Notifier>(settings: &Settings, notifier: &N) -> bool
    ensures answer { result ≡ matching settings.now (N.Notifier.meter notifier.now) }
{
    notifier.set_point() == settings.set_point() && notifier.weight() == settings.weight()
}

fn in_limits(frames: usize, wire: usize) -> bool
    ensures answer { result ≡ in_limits frames wire }
{
    (1..=MOST_FRAMES).contains(&frames) && (1..=MOST_NOTICES).contains(&wire)
}

// Refuses what a line may not be opened with.
fn check_opening<N: Notifier>(
    settings: &Settings,
    notifier: &N,
    frames: usize,
    wire: usize,
) -> Result<(), OpenFault>
    ensures answer { result_err result ≡ open_refusal settings.now (N.Notifier.meter notifier.now) frames wire }
{
    if !matching(settings, notifier) {
        return Err(OpenFault::Notifier);
    }
    if !in_limits(frames, wire) {
        return Err(OpenFault::Memory);
    }
    Ok(())
}

impl<R: RateRule, N: Notifier> Line<R, N> {
    // Opens a line over two memories, whose sizes are then fixed. The notifier need not be new.
    pub fn open(
        regime: Regime<R>,
        notifier: N,
        frames: &[Frame],
        wire: &[Notice],
    ) -> Result<Line<R, N>, NotOpened<R, N>>
        ensures answer { told_open regime notifier frames.now wire.now result ≡ open_answer regime notifier frames.now wire.now (open_refusal regime.settings (N.Notifier.meter notifier) (length frames.now) (length wire.now)) }
        ensures holds { IfOk result (Opens regime notifier frames.now wire.now R.RateRule N.Notifier) }
    {
        // By hand: the closure of a `map_err` would take the regime and the notifier, of which the line is made.
        if let Err(fault) = check_opening(&regime.settings, &notifier, frames.len(), wire.len()) {
            return Err(NotOpened {
                fault,
                regime,
                notifier,
            });
        }
        Ok(Line {
            regime,
            notifier,
            table: Table::new(),
            frames: Ring::new(frames.len()),
            wire: Ring::new(wire.len()),
            pages: 0,
        })
    }
}
