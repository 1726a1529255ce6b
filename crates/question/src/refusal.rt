ghost use Rattle.std.specs.Prelude.{◌≡◌, Some};
ghost use Rattle.question.specs.Refusals.{refusal_number, subject, complaint, setting_name, range_complaint, record_complaint, refusal_words};
ghost use Rattle.question.specs.declared.refusal.Refusal.TheVariants.{Settings, Record};

use record::ReadFault;
use settings::fault::SettingsFault;
use std::fmt;

// Why a question is refused.
#[derive(Clone, Copy)]
pub enum Refusal {
    // The first line has not eight or nine fields.
    Fields,
    // A setting is no number.
    Number(SettingsFault),
    // The ninth field is no letter of a rule.
    Letter,
    Settings(SettingsFault),
    // The second line is not hexadecimal digits, two to a byte.
    Digits,
    Record(ReadFault),
}

impl Refusal {
    pub fn number(self) -> u8
        ensures answer { result ≡ refusal_number self }
    {
        match self {
            Refusal::Fields => 41,
            Refusal::Number(_) => 42,
            Refusal::Letter => 40,
            Refusal::Settings(fault) => fault.number(),
            Refusal::Digits => 43,
            Refusal::Record(fault) => fault.number(),
        }
    }

    // What is at fault.
    pub fn subject(self) -> &'static str
        ensures answer { result.now ≡ subject self }
    {
        match self {
            Refusal::Fields => "the first line",
            Refusal::Number(setting) => setting_name(setting),
            Refusal::Letter => "the ninth field",
            Refusal::Settings(setting) => setting_name(setting),
            Refusal::Digits => "the second line",
            Refusal::Record(_) => "the record",
        }
    }

    // What is wrong with it.
    pub fn complaint(self) -> &'static str
        ensures answer { result.now ≡ complaint self }
    {
        match self {
            Refusal::Fields => "has not eight or nine fields with one space between them",
            Refusal::Number(_) => "is not 1 to 10 digits that make at most 4294967295",
            Refusal::Letter => "is not the letter of a rate rule, q or g",
            Refusal::Settings(setting) => range_complaint(setting),
            Refusal::Digits => "is not hexadecimal digits, two to a byte",
            Refusal::Record(fault) => record_complaint(fault),
        }
    }
}

impl fmt::Display for Refusal {
    ghost output = { λ refusal. Some (refusal_words refusal) };

    fn fmt<W: fmt::Write>(&self, f: &mut fmt::Formatter<W>) -> fmt::Result {
        let number = self.number();
        let subject = self.subject();
        let complaint = self.complaint();
        write!(f, "refused {number}: {subject} {complaint}")
    }
}

impl From<SettingsFault> for Refusal {
    ghost from_gives = { λ why r. r ≡ Settings why };

    fn from(why: SettingsFault) -> Refusal {
        Refusal::Settings(why)
    }
}

impl From<ReadFault> for Refusal {
    ghost from_gives = { λ why r. r ≡ Record why };

    fn from(why: ReadFault) -> Refusal {
        Refusal::Record(why)
    }
}

fn setting_name(setting: SettingsFault) -> &'static str
    ensures answer { result.now ≡ setting_name setting }
{
    match setting {
        SettingsFault::LineRate => "the line rate",
        SettingsFault::Gain => "the gain",
        SettingsFault::StepA => "step A",
        SettingsFault::StepB => "step B",
        SettingsFault::Period => "the timer period",
        SettingsFault::ByteLimit => "the byte limit",
        SettingsFault::SetPoint => "the set point",
        SettingsFault::Weight => "the weight",
    }
}

fn range_complaint(setting: SettingsFault) -> &'static str
    ensures answer { result.now ≡ range_complaint setting }
{
    match setting {
        SettingsFault::LineRate => "is not from 100000 to 10000000",
        SettingsFault::Gain => "is not from 1 to 32",
        SettingsFault::StepA => "is not from 1 to 100000",
        SettingsFault::StepB => "is not from step A to 1000000",
        SettingsFault::Period => "is not from 100 to 100000",
        SettingsFault::ByteLimit => "is not from 10000 to 1000000",
        SettingsFault::SetPoint => "is not from 16 to 512",
        SettingsFault::Weight => "is not from 1 to 8",
    }
}

fn record_complaint(fault: ReadFault) -> &'static str
    ensures answer { result.now ≡ record_complaint fault }
{
    match fault {
        ReadFault::Length =>
            "is under 2 bytes, or its count is not the number of bytes that follow (byte 0)",
        ReadFault::Version => "has no version, or one that is not 1 (byte 2)",
        ReadFault::Count => "has a count that is not 12 (byte 0)",
        ReadFault::Value => "has a value above 63 (byte 13)",
    }
}
