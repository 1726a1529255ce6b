ghost use Rattle.std.specs.Prelude.{◌≡◌};
ghost use Rattle.tally.specs.Refusals.{call_number, open_number};
ghost use Rattle.tally.specs.declared.fault.CallFault.TheVariants.{Record};

use record::ReadFault;

// Why a call is refused.
#[derive(Clone, Copy)]
pub enum CallFault {
    // A memory is of another size than at opening.
    Memory,
    // A frame is too short or too long.
    Length,
    // No frame place is free.
    Full,
    // The flow's limiter holds the frame back.
    Pace,
    // No frame waits.
    NoFrame,
    // No notice waits.
    NoNotice,
    // A wait is too long.
    Wait,
    // The bytes are no record.
    Record(ReadFault),
}

impl From<ReadFault> for CallFault {
    ghost from_gives = { λ e r. r ≡ Record e };

    fn from(fault: ReadFault) -> CallFault {
        CallFault::Record(fault)
    }
}

impl CallFault {
    // The refusal's number.
    pub fn number(self) -> u8
        ensures answer { result ≡ call_number self }
    {
        match self {
            CallFault::Memory => 6,
            CallFault::Length => 10,
            CallFault::Full => 11,
            CallFault::Pace => 12,
            CallFault::NoFrame => 20,
            CallFault::NoNotice => 21,
            CallFault::Wait => 22,
            CallFault::Record(fault) => fault.number(),
        }
    }
}

// Why a line is not opened.
#[derive(Clone, Copy)]
pub enum OpenFault {
    // The notifier's set point or weight is not that of the settings.
    Notifier,
    // A memory is outside its limits.
    Memory,
}

impl OpenFault {
    // The refusal's number.
    pub fn number(self) -> u8
        ensures answer { result ≡ open_number self }
    {
        match self {
            OpenFault::Notifier => 5,
            OpenFault::Memory => 6,
        }
    }
}
