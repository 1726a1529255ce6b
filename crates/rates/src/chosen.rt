ghost use Rattle.std.specs.Prelude.{◌≡◌};
ghost use Rattle.rates.specs.Chosen.{kind_of, meant, meant_by, chosen_rule};
ghost use Rattle.rates.specs.declared.chosen.ChosenRule.TheVariants.{Standard, Rungs};
ghost use Rattle.rates.specs.RungRuleLaws.{rungs_lawful};
ghost use Rattle.rates.specs.StandardLaws.{standard_lawful};
ghost use Rattle.settings.specs.Letters.{named_or_told};

use crate::rate_rule::RateRule;
use crate::rates::{Rates, Stages};
use crate::rung_rule::RungRule;
use crate::standard::Standard;
use settings::accepted::Settings;
use settings::letter::UnknownLetter;

// The rules that there are.
#[derive(Clone, Copy)]
pub enum RuleKind {
    Standard,
    Rungs,
}

// The rule that a letter stands for in text.
impl TryFrom<char> for RuleKind {
    type Error = UnknownLetter;

    ghost try_from_gives = { λ letter r. r ≡ named_or_told (kind_of letter) letter };

    fn try_from(letter: char) -> Result<Self, UnknownLetter> {
        match letter {
            'q' => Ok(RuleKind::Standard),
            'g' => Ok(RuleKind::Rungs),
            _ => Err(UnknownLetter(letter)),
        }
    }
}

// A rule that is chosen while the program runs. An enum and no `dyn`: there are just these rules, and no heap here.
#[derive(Clone, Copy)]
pub enum ChosenRule {
    Standard(Standard),
    Rungs(RungRule),
}

impl ChosenRule {
    pub fn new(kind: RuleKind, settings: Settings) -> ChosenRule
        ensures answer { meant result ≡ meant_by kind settings.figures }
        ensures chosen { result ≡ chosen_rule kind settings }
    {
        match kind {
            RuleKind::Standard => ChosenRule::Standard(Standard::new(settings)),
            RuleKind::Rungs => ChosenRule::Rungs(RungRule::new(settings)),
        }
    }
}

impl RateRule for ChosenRule {
    ghost meaning = { meant };

    ghost lawful = { elim [
      | Standard r ↦ standard_lawful r.settings.figures r.settings.gain_in
      | Rungs r ↦ rungs_lawful r.standard.settings.figures r.standard.settings.gain_in
    ] };

    fn floor(&self) -> u32 {
        match self {
            ChosenRule::Standard(rule) => rule.floor(),
            ChosenRule::Rungs(rule) => rule.floor(),
        }
    }

    fn cut(&self, line_rate: u32, current: u32, value: u8) -> u32 {
        match self {
            ChosenRule::Standard(rule) => rule.cut(line_rate, current, value),
            ChosenRule::Rungs(rule) => rule.cut(line_rate, current, value),
        }
    }

    fn raise(&self, line_rate: u32, rates: Rates, stages: Stages) -> Rates {
        match self {
            ChosenRule::Standard(rule) => rule.raise(line_rate, rates, stages),
            ChosenRule::Rungs(rule) => rule.raise(line_rate, rates, stages),
        }
    }
}
