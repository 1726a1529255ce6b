ghost use Rattle.std.specs.Prelude.{◌≡◌};
ghost use Rattle.trace.specs.Faults.{trace_number, fault_place, fault_byte};
ghost use Rattle.trace.specs.declared.fault.TraceFault.TheVariants as why;

use commands::misread::SyntaxFault;
use record::ReadFault;
use settings::fault::SettingsFault;
use tally::fault::CallFault;

// Why a line of a trace is refused.
#[derive(Clone, Copy)]
pub enum TraceFault {
    // The trace is too long.
    Long,
    // The line is no command.
    Syntax(SyntaxFault),
    // A command before a line is opened, or another opening.
    Order,
    Settings(SettingsFault),
    // The call's own refusal, a record's fault within it.
    Call(CallFault),
}

impl From<SettingsFault> for TraceFault {
    ghost from_gives = { λ e r. r ≡ why.Settings e };

    fn from(fault: SettingsFault) -> TraceFault {
        TraceFault::Settings(fault)
    }
}

impl From<CallFault> for TraceFault {
    ghost from_gives = { λ e r. r ≡ why.Call e };

    fn from(fault: CallFault) -> TraceFault {
        TraceFault::Call(fault)
    }
}

fn setting_place(fault: SettingsFault) -> usize
    ensures answer { result ≡ fault_place (why.Settings fault) }
{
    match fault {
        SettingsFault::LineRate => 1,
        SettingsFault::Gain => 2,
        SettingsFault::StepA => 3,
        SettingsFault::StepB => 4,
        SettingsFault::Period => 5,
        SettingsFault::ByteLimit => 6,
        SettingsFault::SetPoint => 7,
        SettingsFault::Weight => 8,
    }
}

impl TraceFault {
    // The refusal's number.
    pub fn number(self) -> u8
        ensures answer { result ≡ trace_number self }
    {
        match self {
            TraceFault::Long => 46,
            TraceFault::Syntax(fault) => fault.number(),
            TraceFault::Order => 45,
            TraceFault::Settings(fault) => fault.number(),
            TraceFault::Call(fault) => fault.number(),
        }
    }

    // The place of the field at fault, the command's being 0.
    pub fn place(self) -> usize
        ensures answer { result ≡ fault_place self }
    {
        match self {
            TraceFault::Long | TraceFault::Syntax(_) | TraceFault::Order => 0,
            TraceFault::Settings(fault) => setting_place(fault),
            TraceFault::Call(CallFault::Length) => 2,
            TraceFault::Call(CallFault::Wait | CallFault::Record(_)) => 1,
            TraceFault::Call(_) => 0,
        }
    }

    // The byte of the record at fault, where it is a record's.
    pub fn byte(self) -> Option<u8>
        ensures answer { result ≡ fault_byte self }
    {
        match self {
            TraceFault::Call(CallFault::Record(fault)) => Some(fault.byte()),
            _ => None,
        }
    }
}

// A refusal with its place in the trace, both from 1.
#[derive(Clone, Copy)]
pub struct Refusal {
    pub fault: TraceFault,
    pub line: usize,
    pub column: usize,
}
