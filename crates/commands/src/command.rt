use notifiers::chosen::NotifierKind;
use rates::chosen::RuleKind;
use settings::figures::Figures;

// What opens a line: its settings, not yet judged, and what it is to use.
#[derive(Clone, Copy)]
pub struct Opening {
    pub figures: Figures,
    pub rule: RuleKind,
    pub notifier: NotifierKind,
}

// What a line of a trace says. It is a value: only a line that is open can do it.
#[derive(Clone, Copy)]
pub enum Command<'a> {
    Open(Opening),
    // length in bytes
    Offer { flow: u32, length: u32 },
    Leave,
    Deliver,
    // A record, as an even number of hexadecimal digits.
    Receive { digits: &'a [u8] },
    // µs
    Wait(u32),
    // The rates of a flow.
    Rates(u32),
    Columns,
}
