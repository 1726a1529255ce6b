ghost use Rattle.std.specs.Prelude.{◌≡◌};
ghost use Rattle.limiters.specs.Pass.{marked, slots_passed};

use crate::limiter::Identity;
use crate::table::Table;
use rates::rate_rule::RateRule;
use rates::regime::Regime;

impl Table {
    // A frame: charged to its limiter if it has one, and the mark that it carries. None where the limiter holds it back.
    pub fn pass<R: RateRule>(
        &mut self,
        regime: &Regime<R>,
        who: Identity,
        length: u32,
    ) -> Option<u8>
        ensures answer { result ≡ marked (R.RateRule.meaning regime.now.rule) regime.now.settings.figures length who self.old.slots }
        ensures slots { self.new.slots ≡ slots_passed (R.RateRule.meaning regime.now.rule) regime.now.settings.figures length who self.old.slots }
        ensures cursor { self.new.cursor ≡ self.old.cursor }
    {
        let Some(slot) = self.serving(who) else {
            return Some(0);
        };
        let limiter = &mut self.slots[slot];
        if !limiter.may_pass(&regime.settings, length) {
            return None;
        }
        limiter.send(regime, length);
        Some(limiter.held())
    }
}
