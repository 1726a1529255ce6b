ghost use Rattle.std.specs.Prelude.{◌≡◌, take};
ghost use Rattle.line.specs.Reading.{rates_of_flow, listed};

use crate::listing::{FlowRates, ListedRow, Listing};
use crate::uplink::Line;
use limiters::limiter::{Identity, Limiter};
use rates::rates::Rates;

impl<R, N> Line<R, N> {
    // The rates that a flow is held to, and the slot of its limiter; the line rate for both without one.
    pub fn rates_of(&self, who: Identity) -> FlowRates
        ensures answer { result ≡ rates_of_flow self.now.regime.settings.figures.line_rate who self.now.table.slots }
    {
        if let Some(slot) = self.table.serving(who)
            && let Limiter::InService(row) = self.table.limiter(slot)
        {
            return FlowRates {
                slot: Some(slot),
                rates: row.rates,
            };
        }
        let line_rate = self.regime.settings.line_rate();
        FlowRates {
            slot: None,
            rates: Rates {
                current: line_rate,
                target: line_rate,
            },
        }
    }

    // A row for each limiter in service.
    pub fn listing(&self) -> Listing
        ensures answer { take result.count result.rows ≡ listed 0 self.now.table.slots }
    {
        let mut listing = Listing::empty();
        for (slot, limiter) in self.table.slots().iter().enumerate() {
            if let Some(serves) = limiter.serves() {
                listing.add(ListedRow { slot, serves });
            }
        }
        listing
    }
}
