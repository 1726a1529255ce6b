ghost use Rattle.std.specs.Prelude.{◌≡◌};
ghost use Rattle.commands.specs.Misreads.{fault_number};

// What is wrong with a line.
#[derive(Clone, Copy)]
pub enum SyntaxFault {
    // The first field is no command's letter.
    Command,
    // The command has another number of fields.
    Fields,
    // A field is not 1 to 10 digits that make at most 4,294,967,295.
    Number,
    // A field is no rule's or no notifier's letter.
    Letter,
    // A field is not hexadecimal digits, two to a byte.
    Digits,
}

impl SyntaxFault {
    pub fn number(self) -> u8
        ensures answer { result ≡ fault_number self }
    {
        match self {
            SyntaxFault::Command => 40,
            SyntaxFault::Fields => 41,
            SyntaxFault::Number => 42,
            SyntaxFault::Letter => 40,
            SyntaxFault::Digits => 43,
        }
    }
}

// Why a line is no command.
#[derive(Clone, Copy)]
pub struct Misread {
    pub fault: SyntaxFault,
    // from 1: where the field at fault begins
    pub column: usize,
}
