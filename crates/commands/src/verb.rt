ghost use Rattle.std.specs.Prelude.{◌≡◌};
ghost use Rattle.settings.specs.Letters.{named_or_told};
ghost use Rattle.commands.specs.Verbs.{verb_of, fields_of};

use settings::letter::UnknownLetter;

// What a command does, as its first field names it. It is a value, so that the fields are counted before any is read.
#[derive(Clone, Copy)]
pub(crate) enum Verb {
    Open,
    Offer,
    Leave,
    Deliver,
    Receive,
    Wait,
    Rates,
    Columns,
}

impl TryFrom<char> for Verb {
    type Error = UnknownLetter;

    ghost try_from_gives = { λ letter r. r ≡ named_or_told (verb_of letter) letter };

    fn try_from(letter: char) -> Result<Self, UnknownLetter> {
        match letter {
            's' => Ok(Verb::Open),
            'o' => Ok(Verb::Offer),
            'l' => Ok(Verb::Leave),
            'd' => Ok(Verb::Deliver),
            'r' => Ok(Verb::Receive),
            'w' => Ok(Verb::Wait),
            'f' => Ok(Verb::Rates),
            'p' => Ok(Verb::Columns),
            _ => Err(UnknownLetter(letter)),
        }
    }
}

impl Verb {
    // How many fields a command has, its letter counted.
    pub(crate) fn fields(self) -> usize
        ensures answer { result ≡ fields_of self }
    {
        match self {
            Verb::Open => 11,
            Verb::Offer => 3,
            Verb::Leave => 1,
            Verb::Deliver => 1,
            Verb::Receive => 2,
            Verb::Wait => 2,
            Verb::Rates => 2,
            Verb::Columns => 1,
        }
    }
}
