ghost use Rattle.std.specs.Prelude.{◌≡◌, cond, ◌==◌};
ghost use Rattle.notifiers.specs.Sampler.{new_sampler, sampler_meter, sampler_samples, sampler_next};
ghost use Rattle.notifiers.specs.declared.shown.Showing.TheVariants.{Quiet, Notice};
ghost use Rattle.std.proofs.Common.{rules};

use crate::notifier::Notifier;
use crate::severity::severity;
use crate::shown::{Showing, Shown};
use crate::spacing::Spacing;
use settings::accepted::Settings;

// Samples as its spacing says.
#[derive(Clone, Copy)]
pub struct Sampler<S> {
    settings: Settings,
    // pages at the last sample
    old: u32,
    // bytes since the last sample
    since: u32,
    spacing: S,
}

impl<S: Spacing> Sampler<S> {
    pub fn new(settings: Settings) -> Sampler<S>
        ensures answer { result ≡ new_sampler S.Spacing.first settings }
    {
        Sampler {
            settings,
            old: 0,
            since: 0,
            spacing: S::start(),
        }
    }
}

// What a sample makes: no notice where its severity is 0.
fn sampled(severity: u8) -> Showing
    ensures answer { result ≡ cond (severity == 0) Quiet (Notice severity) }
{
    if severity == 0 {
        Showing::Quiet
    } else {
        Showing::Notice(severity)
    }
}

impl<S: Spacing> Notifier for Sampler<S> {
    ghost meter = { sampler_meter S.Spacing.gap };

    ghost samples = { sampler_samples S.Spacing.due };

    ghost next = { sampler_next S.Spacing.due S.Spacing.after };

    ghost due = { Prim.search rules };

    ghost moves = { Prim.search rules };

    ghost alone = { Prim.search rules };

    fn show(&mut self, shown: Shown) -> Showing {
        if !shown.is_lawful() {
            return Showing::Unsampled;
        }
        let severity = severity(&self.settings, shown.pages, self.old);
        if self.spacing.count(severity, self.since, shown.length) {
            self.old = shown.pages;
            self.since = 0;
            sampled(severity)
        } else {
            self.since += shown.length;
            Showing::Unsampled
        }
    }

    fn set_point(&self) -> u32 {
        self.settings.set_point()
    }

    fn weight(&self) -> u32 {
        self.settings.weight()
    }

    fn old(&self) -> u32 {
        self.old
    }
}
