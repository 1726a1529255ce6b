ghost use Rattle.std.specs.Prelude.{◌≡◌};
ghost use Rattle.rates.specs.Pair.{rates_of, paired, told};

use crate::pair::RatePair;
use crate::rates::Rates;

impl RatePair {
    // The two rates where they are in order. No error says why they are not: there is one reason.
    pub fn new(rates: Rates) -> Option<RatePair>
        ensures answer { told result ≡ paired rates }
    {
        if rates.current > rates.target {
            return None;
        }
        Some(RatePair {
            current: rates.current,
            target: rates.target,
        })
    }
}

impl From<RatePair> for Rates {
    ghost from_gives = { λ pair r. r ≡ rates_of pair };

    fn from(pair: RatePair) -> Rates {
        Rates {
            current: pair.current,
            target: pair.target,
        }
    }
}
