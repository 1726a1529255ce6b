ghost use Rattle.std.specs.Prelude.{◌≡◌};
ghost use Rattle.line.specs.State.{state};
ghost use Rattle.trace.specs.Session.{beginning, situation, new_serving, opened_line, told_line};
ghost use Rattle.trace.specs.Settled.{settled};

use crate::fault::TraceFault;
use crate::session::Session;
use commands::command::Opening;
use limiters::limiter::Identity;
use line::uplink::Line;
use line::uplink::opening::{MOST_FRAMES, MOST_NOTICES};
use notifiers::chosen::ChosenNotifier;
use rates::chosen::ChosenRule;
use rates::regime::Regime;
use settings::accepted::Settings;
use tally::frame::Frame;
use tally::notice::Notice;

const BLANK_FRAME: Frame = Frame {
    from: Identity { flow: 0 },
    length: 0,
    mark: 0,
};

const BLANK_NOTICE: Notice = Notice {
    to: Identity { flow: 0 },
    value: 0,
};

impl Session {
    // A trace begins with no line and blank memories.
    pub fn new() -> Session
        ensures answer { situation result ≡ beginning }
    {
        Session {
            line: None,
            frames: [BLANK_FRAME; MOST_FRAMES],
            wire: [BLANK_NOTICE; MOST_NOTICES],
        }
    }

    // A line as an opening has it, or the setting that is out of its range.
    pub(crate) fn open_line(
        &self,
        opening: Opening,
    ) -> Result<Line<ChosenRule, ChosenNotifier>, TraceFault>
        ensures answer { told_line self.now.frames self.now.wire result ≡ opened_line opening self.now.frames self.now.wire (settled opening.figures) }
    {
        let settings = Settings::accept(opening.figures)?;
        Ok(self.open_with(settings, opening))
    }

    // A line with the rule and the notifier that an opening names.
    fn open_with(&self, settings: Settings, opening: Opening) -> Line<ChosenRule, ChosenNotifier>
        ensures answer { state result self.now.frames self.now.wire ≡ new_serving opening settings self.now.frames self.now.wire }
    {
        let regime = Regime::chosen(opening.rule, settings);
        let notifier = ChosenNotifier::new(opening.notifier, settings);
        match Line::open(regime, notifier, &self.frames, &self.wire) {
            Ok(line) => line,
            Err(_) => unreachable(),
        }
    }
}
