ghost use Rattle.std.specs.Prelude.{◌≡◌, [], slice_index_or};
ghost use Rattle.fields.specs.Failures.{unless_memory};
ghost use Rattle.fields.specs.Letters.{letter_of};
ghost use Rattle.commands.specs.Said.{told};
ghost use Rattle.commands.specs.Commands.{misplaced, Lettered, number_said, figures_said, opening_said, open_said, offer_said, receive_said, wait_said, rates_said, said_as, counted, command_said, located, said};

use crate::columns::column_of;
use crate::command::{Command, Opening};
use crate::misread::{Misread, SyntaxFault};
use crate::verb::Verb;
use fields::{Failure, Fields, are_hex, split};
use settings::figures::Figures;
use settings::letter::UnknownLetter;
use std::alloc::Global;

// The places of the two letters that open a line, behind its eight numbers.
const RULE: usize = 9;

const NOTIFIER: usize = 10;

// A fault, and the place of the field that it is of. Faults of a whole line are of its first field.
#[derive(Clone, Copy)]
struct Misplaced {
    fault: SyntaxFault,
    place: usize,
}

// What the letter in a place names; the fault where it names nothing.
fn named<K: TryFrom<char, Error = UnknownLetter>>(
    fields: &Fields<'_>,
    place: usize,
    fault: SyntaxFault,
) -> Result<K, Misplaced>
    ensures answer { Lettered K.try_from_gives (letter_of (slice_index_or fields.now place [])) (misplaced fault place) result }
{
    let misplaced = Misplaced { fault, place };
    let letter = fields.letter(place).ok_or(misplaced)?;
    K::try_from(letter).map_err(|_| misplaced)
}

#[tactic(auto, unfolding(crate::specs::Commands::number_said))]
fn number(fields: &Fields<'_>, place: usize) -> Result<u32, Misplaced>
    ensures answer { result ≡ number_said fields.now place }
{
    let fault = SyntaxFault::Number;
    fields.number(place).ok_or(Misplaced { fault, place })
}

// The eight numbers behind the letter.
// `question` has other places and faults in these lines: one reader of both would take them as a table of eight.
fn figures(fields: &Fields<'_>) -> Result<Figures, Misplaced>
    ensures answer { result ≡ figures_said fields.now }
{
    Ok(Figures {
        line_rate: number(fields, 1)?,
        gain: number(fields, 2)?,
        step_a: number(fields, 3)?,
        step_b: number(fields, 4)?,
        period: number(fields, 5)?,
        byte_limit: number(fields, 6)?,
        set_point: number(fields, 7)?,
        weight: number(fields, 8)?,
    })
}

fn opening(fields: &Fields<'_>) -> Result<Opening, Misplaced>
    ensures answer { result ≡ opening_said fields.now }
{
    let figures = figures(fields)?;
    let rule = named(fields, RULE, SyntaxFault::Letter)?;
    let notifier = named(fields, NOTIFIER, SyntaxFault::Letter)?;
    Ok(Opening {
        figures,
        rule,
        notifier,
    })
}

fn open<'a>(fields: &Fields<'a>) -> Result<Command<'a>, Misplaced>
    ensures answer { told result ≡ open_said fields.now }
{
    Ok(Command::Open(opening(fields)?))
}

fn offer<'a>(fields: &Fields<'a>) -> Result<Command<'a>, Misplaced>
    ensures answer { told result ≡ offer_said fields.now }
{
    let flow = number(fields, 1)?;
    let length = number(fields, 2)?;
    Ok(Command::Offer { flow, length })
}

fn receive<'a>(fields: &Fields<'a>) -> Result<Command<'a>, Misplaced>
    ensures answer { told result ≡ receive_said fields.now }
{
    let digits = fields.at(1);
    if are_hex(digits) {
        Ok(Command::Receive { digits })
    } else {
        Err(Misplaced {
            fault: SyntaxFault::Digits,
            place: 1,
        })
    }
}

fn wait<'a>(fields: &Fields<'a>) -> Result<Command<'a>, Misplaced>
    ensures answer { told result ≡ wait_said fields.now }
{
    Ok(Command::Wait(number(fields, 1)?))
}

fn rates<'a>(fields: &Fields<'a>) -> Result<Command<'a>, Misplaced>
    ensures answer { told result ≡ rates_said fields.now }
{
    Ok(Command::Rates(number(fields, 1)?))
}

// What fields in the right number say.
fn read_as<'a>(verb: Verb, fields: &Fields<'a>) -> Result<Command<'a>, Misplaced>
    ensures answer { told result ≡ said_as verb fields.now }
{
    match verb {
        Verb::Open => open(fields),
        Verb::Offer => offer(fields),
        Verb::Leave => Ok(Command::Leave),
        Verb::Deliver => Ok(Command::Deliver),
        Verb::Receive => receive(fields),
        Verb::Wait => wait(fields),
        Verb::Rates => rates(fields),
        Verb::Columns => Ok(Command::Columns),
    }
}

fn count_fields<'a>(verb: Verb, fields: &Fields<'a>) -> Result<Command<'a>, Misplaced>
    ensures answer { told result ≡ counted verb fields.now }
{
    if fields.count() != verb.fields() {
        return Err(Misplaced {
            fault: SyntaxFault::Fields,
            place: 0,
        });
    }
    read_as(verb, fields)
}

fn read_fields<'a>(fields: &Fields<'a>) -> Result<Command<'a>, Misplaced>
    ensures answer { told result ≡ command_said fields.now }
{
    let verb = named(fields, 0, SyntaxFault::Command)?;
    count_fields(verb, fields)
}

fn locate(line: &[u8], misplaced: Misplaced) -> Misread
    ensures answer { result ≡ located line.now misplaced }
{
    Misread {
        fault: misplaced.fault,
        column: column_of(line, misplaced.place),
    }
}

// Reads a line: its fields, with one space between them, are a command, or the first fault is told.
#[tactic(auto, unfolding(crate::specs::Commands::said))]
pub fn read_command<'a>(heap: Global, line: &'a [u8]) -> Result<Command<'a>, Failure<Misread>>
    ensures answer { unless_memory result (λ c. told c ≡ said line.now) }
{
    let fields = split(heap, line, b' ')?;
    read_fields(&fields).map_err(|misplaced| Failure::Refused(locate(line, misplaced)))
}
