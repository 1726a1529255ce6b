ghost use Rattle.std.specs.Prelude.{◌≡◌, ℕ, List, take, OnErr};
ghost use Rattle.text.specs.Lines.{line_text, table_text};
ghost use Rattle.text.specs.Room.{room_answer, written};
ghost use Rattle.trace.specs.Replies.{answer_told, told};
ghost use Rattle.trace.specs.Texts.{told_text, refusal_fields, offered_fields, outcome_fields, slot_field, row_fields, columns, left_fields, held_fields};

use crate::fault::Refusal;
use crate::reply::Reply;
use limiters::table::SLOTS;
use line::listing::{FlowRates, ListedRow, Listing};
use tally::call::{Answer, Offered, Outcome};
use tally::frame::Frame;
use text::{Line, NoRoom, Printed, Table, write};

// What an accepted line begins with.
const ACCEPTED: Printed = Printed::Number(0);

// What a reply tells of.
trait Tell {
    // The bytes that are written.
    ghost text: { Self → List ℕ };

    fn tell(&self, out: &mut [u8]) -> Result<usize, NoRoom>
        ensures answer { result ≡ room_answer (text self.now) out.old }
        ensures after { out.new ≡ written (text self.now) out.old };
}

impl Tell for Offered {
    ghost text = { λ offered. line_text (offered_fields offered) };

    fn tell(&self, out: &mut [u8]) -> Result<usize, NoRoom> {
        match *self {
            Offered::Unsampled => write(&Line(&[ACCEPTED, Printed::Letter(b'n')]), out),
            Offered::Quiet => write(&Line(&[ACCEPTED, Printed::Letter(b'q')]), out),
            Offered::Waiting(value) => {
                let value = Printed::Number(value as u64);
                write(&Line(&[ACCEPTED, Printed::Letter(b'w'), value]), out)
            }
            Offered::Overrun(value) => {
                let value = Printed::Number(value as u64);
                write(&Line(&[ACCEPTED, Printed::Letter(b'x'), value]), out)
            }
        }
    }
}

impl Tell for Outcome {
    ghost text = { λ outcome. line_text (outcome_fields outcome) };

    fn tell(&self, out: &mut [u8]) -> Result<usize, NoRoom> {
        match *self {
            Outcome::Applied { slot, current } => {
                let slot = Printed::Number(slot as u64);
                let current = Printed::Number(current as u64);
                write(
                    &Line(&[ACCEPTED, Printed::Letter(b'a'), slot, current]),
                    out,
                )
            }
            Outcome::Unplaced(who) => {
                let flow = Printed::Number(who.flow as u64);
                write(&Line(&[ACCEPTED, Printed::Letter(b'u'), flow]), out)
            }
            Outcome::Ignored => write(&Line(&[ACCEPTED, Printed::Letter(b'i')]), out),
        }
    }
}

// A frame that leaves: its flow, length and mark.
impl Tell for Frame {
    ghost text = { λ frame. line_text (left_fields frame) };

    fn tell(&self, out: &mut [u8]) -> Result<usize, NoRoom> {
        let flow = Printed::Number(self.from.flow as u64);
        let length = Printed::Number(self.length as u64);
        let mark = Printed::Number(self.mark as u64);
        write(&Line(&[ACCEPTED, flow, length, mark]), out)
    }
}

impl Tell for Answer {
    ghost text = { λ answer. told_text (answer_told answer) };

    fn tell(&self, out: &mut [u8]) -> Result<usize, NoRoom> {
        match self {
            Answer::Accepted(offered) => offered.tell(out),
            Answer::Left(frame) => frame.tell(out),
            Answer::Heard(outcome) => outcome.tell(out),
            Answer::Waited(expiries) => write(&Line(&[ACCEPTED, Printed::Number(*expiries)]), out),
        }
    }
}

fn slot_field(slot: Option<usize>) -> Printed
    ensures answer { result ≡ slot_field slot }
{
    slot.map_or(Printed::Letter(b'-'), |slot| Printed::Number(slot as u64))
}

impl Tell for FlowRates {
    ghost text = { λ rates. line_text (held_fields rates) };

    fn tell(&self, out: &mut [u8]) -> Result<usize, NoRoom> {
        let slot = slot_field(self.slot);
        let current = Printed::Number(self.rates.current as u64);
        let target = Printed::Number(self.rates.target as u64);
        write(&Line(&[ACCEPTED, slot, current, target]), out)
    }
}

fn row_fields(row: ListedRow) -> [Printed; 2]
    ensures answer { result ≡ row_fields row }
{
    let slot = Printed::Number(row.slot as u64);
    let flow = Printed::Number(row.serves.flow as u64);
    [slot, flow]
}

// Over the two columns.
const HEADINGS: [Printed; 2] = [Printed::SlotHeading, Printed::FlowHeading];

impl Tell for Listing {
    ghost text = { λ listing. table_text (columns (take listing.count listing.rows)) };

    fn tell(&self, out: &mut [u8]) -> Result<usize, NoRoom> {
        let listed = self.rows();
        let mut rows = [HEADINGS; SLOTS];
        // An array, since what only writes has no heap, and by place: of rows that a zip over `iter_mut` wrote, the proof
        // that they are these did not close.
        for (i, row) in listed.iter().enumerate() {
            rows[i] = row_fields(*row);
        }
        write(&(HEADINGS, Table(&rows[..listed.len()])), out)
    }
}

// Writes what a line is answered; refused where the buffer is shorter than the text.
pub fn write_reply(reply: &Reply, out: &mut [u8]) -> Result<usize, NoRoom>
    ensures answer { result ≡ room_answer (told_text (told reply.now)) out.old }
    ensures after { out.new ≡ written (told_text (told reply.now)) out.old }
    ensures refused { OnErr result (out.new ≡ out.old) }
{
    match reply {
        Reply::Opened => write(&Line(&[ACCEPTED]), out),
        Reply::Answered(answer) => answer.tell(out),
        Reply::Held(rates) => rates.tell(out),
        Reply::Listed(listing) => listing.tell(out),
    }
}

// Writes a refusal: its number, its line and column, and the byte of a record at fault.
pub fn write_refusal(refusal: Refusal, out: &mut [u8]) -> Result<usize, NoRoom>
    ensures answer { result ≡ room_answer (line_text (refusal_fields refusal)) out.old }
    ensures after { out.new ≡ written (line_text (refusal_fields refusal)) out.old }
    ensures refused { OnErr result (out.new ≡ out.old) }
{
    let number = Printed::Number(refusal.fault.number() as u64);
    let line = Printed::Number(refusal.line as u64);
    let column = Printed::Number(refusal.column as u64);
    match refusal.fault.byte() {
        Some(byte) => {
            let byte = Printed::Number(byte as u64);
            write(&Line(&[number, line, column, byte]), out)
        }
        None => write(&Line(&[number, line, column]), out),
    }
}
