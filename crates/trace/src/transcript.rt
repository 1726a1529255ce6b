ghost use Rattle.std.specs.Prelude.{◌≡◌};
ghost use Rattle.fields.specs.Failures.{unless_memory};
ghost use Rattle.trace.specs.Session.{situation};
ghost use Rattle.trace.specs.Transcript.{PlacedBy, refused_at, misread_at, told_placed, line_reply, line_after};

use crate::fault::{Refusal, TraceFault};
use crate::reply::Reply;
use crate::session::Session;
use commands::columns::column_of;
use commands::misread::Misread;
use commands::reading::read_command;
use fields::Failure;
use std::alloc::Global;

// A fault with its place: the column where the field at fault begins.
fn refused_at(line: usize, text: &[u8], fault: TraceFault) -> Refusal
    ensures answer { result ≡ refused_at line text.now fault }
{
    Refusal {
        fault,
        line,
        column: column_of(text, fault.place()),
    }
}

fn misread_at(line: usize, misread: Misread) -> Refusal
    ensures answer { result ≡ misread_at line misread }
{
    Refusal {
        fault: TraceFault::Syntax(misread.fault),
        line,
        column: misread.column,
    }
}

// A failure whose refusal gains its place. Not a public `map`, which would have to ask that its closure may be called.
fn placed<F, P: FnOnce(F) -> Refusal>(failure: Failure<F>, place: P) -> Failure<Refusal>
    requires { P.IsAlwaysCallable place }
    ensures answer { PlacedBy (P.post place) failure result }
{
    match failure {
        Failure::Refused(fault) => Failure::Refused(place(fault)),
        Failure::Memory => Failure::Memory,
    }
}

// Answers one line of a trace.
#[tactic(auto, unfolding(crate::specs::Transcript::line_reply, crate::specs::Transcript::line_after))]
fn answer_line(
    heap: Global,
    session: &mut Session,
    line: usize,
    text: &[u8],
) -> Result<Reply, Failure<Refusal>>
    ensures answer { unless_memory result (λ x. told_placed x ≡ line_reply (situation session.old) line text.now) }
    ensures after { unless_memory result (λ _. situation session.new ≡ line_after (situation session.old) text.now) }
{
    let command = read_command(heap, text).map_err(|failure| placed(
        failure,
        |misread| misread_at(line, misread),
    ))?;
    session.obey(heap, command).map_err(|failure| placed(
        failure,
        |fault| refused_at(line, text, fault),
    ))
}
