// Why a record is refused. The numbers are the same wherever a refusal is shown.
ghost use Rattle.record.specs.Refusals.{read_number, read_byte, write_number};
ghost use Rattle.std.specs.Prelude.{◌≡◌};

// Why bytes are no record, in the order in which the tests are made.
#[derive(Clone, Copy)]
pub enum ReadFault {
    Length,
    Version,
    Count,
    Value,
}

impl ReadFault {
    pub fn number(self) -> u8
        ensures answer { result ≡ read_number self }
    {
        match self {
            ReadFault::Length => 30,
            ReadFault::Version => 31,
            ReadFault::Count => 32,
            ReadFault::Value => 33,
        }
    }

    // The byte of the record at fault.
    pub fn byte(self) -> u8
        ensures answer { result ≡ read_byte self }
    {
        match self {
            ReadFault::Length => 0,
            ReadFault::Version => 2,
            ReadFault::Count => 0,
            ReadFault::Value => 13,
        }
    }
}

// Why a record is not written.
#[derive(Clone, Copy)]
pub enum WriteFault {
    Value,
    Room,
}

impl WriteFault {
    pub fn number(self) -> u8
        ensures answer { result ≡ write_number self }
    {
        match self {
            WriteFault::Value => 33,
            WriteFault::Room => 44,
        }
    }
}
