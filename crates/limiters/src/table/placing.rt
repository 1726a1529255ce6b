ghost use Rattle.std.specs.Prelude.{◌≡◌, replicate, slice_index_or, slice_set};
ghost use Rattle.limiters.specs.Place.{placed, slots_after, cursor_after, sent_by};
ghost use Rattle.limiters.specs.Step.{stepped};
ghost use Rattle.limiters.specs.Table.{serving};
ghost use Rattle.limiters.specs.declared.limiter.Limiter.TheVariants.{Free};

use crate::event::Event;
use crate::limiter::{Identity, Limiter};
use crate::table::{SLOTS, Table};
use rates::rate_rule::RateRule;
use rates::regime::Regime;
use settings::accepted::Settings;

impl Table {
    // 64 free limiters, and the cursor at the first.
    pub fn new() -> Table
        ensures slots { result.slots ≡ replicate 64 Free }
        ensures cursor { result.cursor ≡ 0 }
    {
        Table {
            slots: [Limiter::Free; SLOTS],
            cursor: 0,
        }
    }

    // A notice: to the slot that serves, or to a free one that is taken for it. None where it is unplaced.
    pub fn notice<R: RateRule>(
        &mut self,
        regime: &Regime<R>,
        who: Identity,
        value: u8,
    ) -> Option<usize>
        ensures answer { result ≡ placed who self.old.cursor self.old.slots }
        ensures slots { self.new.slots ≡ slots_after (R.RateRule.meaning regime.now.rule) regime.now.settings.figures who value self.old.cursor self.old.slots }
        ensures cursor { self.new.cursor ≡ cursor_after (R.RateRule.meaning regime.now.rule) regime.now.settings.figures who value self.old.cursor self.old.slots }
    {
        if let Some(slot) = self.serving(who) {
            self.slots[slot].hear(regime, value);
            return Some(slot);
        }
        let slot = self.free()?;
        self.slots[slot].take(&regime.settings, who);
        self.slots[slot].hear(regime, value);
        self.cursor = (slot + 1) % SLOTS;
        Some(slot)
    }

    // An accepted frame, charged to its limiter if it has one.
    pub fn send<R: RateRule>(&mut self, regime: &Regime<R>, who: Identity, length: u32)
        ensures slots { self.new.slots ≡ sent_by (R.RateRule.meaning regime.now.rule) regime.now.settings.figures length self.old.slots (serving who self.old.slots) }
        ensures cursor { self.new.cursor ≡ self.old.cursor }
    {
        if let Some(slot) = self.serving(who) {
            self.slots[slot].send(regime, length);
        }
    }

    // One slot's event; past the last slot nothing happens.
    pub fn step(&mut self, settings: &Settings, slot: usize, event: Event)
        ensures slots { self.new.slots ≡ slice_set self.old.slots slot (stepped settings.now.figures event (slice_index_or self.old.slots slot Free)) }
        ensures cursor { self.new.cursor ≡ self.old.cursor }
    {
        // Not `get_mut`: nothing is known of the slots after it.
        if slot < SLOTS {
            self.slots[slot].step(settings, event);
        }
    }

    // The slots in order.
    pub fn slots(&self) -> &[Limiter]
        ensures answer { result.now ≡ self.now.slots }
    {
        &self.slots
    }

    // A slot's limiter, and a free one past the last.
    pub fn limiter(&self, place: usize) -> Limiter
        ensures answer { result ≡ slice_index_or self.now.slots place Free }
    {
        self.slots.get(place).copied().unwrap_or(Limiter::Free)
    }
}
