ghost use Rattle.std.specs.Prelude.{◌≡◌, [], slice_index_or};
ghost use Rattle.fields.specs.Failures.{unless_memory};
ghost use Rattle.fields.specs.Parts.{parts_after};
ghost use Rattle.question.specs.Questions.{number_said, figures_said, kind_said, opening_from, opening_of, record_of, record_said};
ghost use Rattle.question.specs.Asked.{told_opening, opening_said, told_question, asked};

use crate::refusal::Refusal;
use fields::{Failure, Fields, NoDigits, cut, hex_bytes, split};
use rates::chosen::RuleKind;
use record::{Record, read};
use settings::accepted::Settings;
use settings::fault::SettingsFault;
use settings::figures::Figures;
use std::alloc::Global;

// The first line has so many numbers, and perhaps a letter after them.
const SETTINGS: usize = 8;

// A rule and its settings.
#[derive(Clone, Copy)]
pub struct Opening {
    pub rule: RuleKind,
    pub settings: Settings,
}

#[tactic(auto, unfolding(crate::specs::Questions::number_said))]
fn number(fields: &Fields<'_>, place: usize, setting: SettingsFault) -> Result<u32, Refusal>
    ensures answer { result ≡ number_said fields.now place setting }
{
    fields.number(place).ok_or(Refusal::Number(setting))
}

// The eight settings of the first line, not yet judged.
// `commands` has other places and faults in these lines: one reader of both would take them as a table of eight.
fn figures(fields: &Fields<'_>) -> Result<Figures, Refusal>
    ensures answer { result ≡ figures_said fields.now }
{
    Ok(Figures {
        line_rate: number(fields, 0, SettingsFault::LineRate)?,
        gain: number(fields, 1, SettingsFault::Gain)?,
        step_a: number(fields, 2, SettingsFault::StepA)?,
        step_b: number(fields, 3, SettingsFault::StepB)?,
        period: number(fields, 4, SettingsFault::Period)?,
        byte_limit: number(fields, 5, SettingsFault::ByteLimit)?,
        set_point: number(fields, 6, SettingsFault::SetPoint)?,
        weight: number(fields, 7, SettingsFault::Weight)?,
    })
}

// The rule that the ninth field names; the standard rule where there is none.
fn rule_kind(fields: &Fields<'_>) -> Result<RuleKind, Refusal>
    ensures answer { result ≡ kind_said fields.now }
{
    if fields.count() == SETTINGS {
        return Ok(RuleKind::Standard);
    }
    let letter = fields.letter(SETTINGS).ok_or(Refusal::Letter)?;
    RuleKind::try_from(letter).map_err(|_| Refusal::Letter)
}

fn judge_fields(fields: &Fields<'_>) -> Result<Opening, Refusal>
    ensures answer { told_opening result ≡ opening_from fields.now }
{
    let figures = figures(fields)?;
    let rule = rule_kind(fields)?;
    let settings = Settings::accept(figures)?;
    Ok(Opening { rule, settings })
}

fn count_fields(fields: &Fields<'_>) -> Result<Opening, Refusal>
    ensures answer { told_opening result ≡ opening_of fields.now }
{
    let count = fields.count();
    if count < SETTINGS || count > SETTINGS + 1 {
        return Err(Refusal::Fields);
    }
    judge_fields(fields)
}

#[tactic(auto, unfolding(crate::specs::Asked::opening_said))]
fn read_opening(heap: Global, line: &[u8]) -> Result<Opening, Failure<Refusal>>
    ensures answer { unless_memory result (λ s. told_opening s ≡ opening_said line.now) }
{
    let fields = split(heap, line, b' ')?;
    count_fields(&fields).map_err(Failure::Refused)
}

fn judge_record(bytes: &[u8]) -> Result<Record, Refusal>
    ensures answer { result ≡ record_of bytes.now }
{
    Ok(read(bytes)?)
}

#[tactic(auto, unfolding(crate::specs::Questions::record_said))]
fn read_record(heap: Global, line: &[u8]) -> Result<Record, Failure<Refusal>>
    ensures answer { unless_memory result (λ s. s ≡ record_said line.now) }
{
    // By a match: a `From` between two failures is not this crate's to write.
    let bytes = hex_bytes(heap, line).map_err(|failure| match failure {
        Failure::Refused(NoDigits) => Failure::Refused(Refusal::Digits),
        Failure::Memory => Failure::Memory,
    })?;
    judge_record(bytes.as_slice()).map_err(Failure::Refused)
}

// What is asked: the rule and the settings, and the record that a flow at the line rate receives.
#[derive(Clone, Copy)]
pub struct Question {
    pub opening: Opening,
    pub said: Record,
}

// The second line, and an empty one where there is none.
fn second_line(rest: Option<&[u8]>) -> &[u8]
    ensures answer { result.now ≡ slice_index_or (parts_after 10 rest.entry) 0 [] }
{
    rest.map_or(&[], |text| cut(text, b'\n').field)
}

// Reads a question: a line with the settings, a line with the record. Later lines are not looked at.
pub fn ask(heap: Global, input: &[u8]) -> Result<Question, Failure<Refusal>>
    ensures answer { unless_memory result (λ q. told_question q ≡ asked input.now) }
{
    let first = cut(input, b'\n');
    let opening = read_opening(heap, first.field)?;
    let said = read_record(heap, second_line(first.rest))?;
    Ok(Question { opening, said })
}
