ghost use Rattle.std.specs.Prelude.{◌≡◌, None};
ghost use Rattle.fields.specs.Failures.{unless_memory};
ghost use Rattle.commands.specs.Said.{meant, receives};
ghost use Rattle.line.specs.State.{state};
ghost use Rattle.tally.specs.Saying.{said};
ghost use Rattle.trace.specs.Replies.{told_reply};
ghost use Rattle.trace.specs.Session.{call_reply, call_after, serving_reply, serving_after, serving, reply_to, situation, situation_after};

use crate::fault::TraceFault;
use crate::reply::Reply;
use crate::session::Session;
use commands::command::Command;
use fields::{Failure, hex_bytes};
use limiters::limiter::Identity;
use line::uplink::Line;
use notifiers::chosen::ChosenNotifier;
use rates::chosen::ChosenRule;
use std::alloc::Global;
use tally::call::Call;

impl Session {
    // Does what a command says, or refuses it. For want of memory only a record is left undone.
    pub fn obey(&mut self, heap: Global, command: Command) -> Result<Reply, Failure<TraceFault>>
        ensures answer { unless_memory result (λ x. told_reply x ≡ reply_to (situation self.old) (meant command.entry)) }
        ensures after { unless_memory result (λ _. situation self.new ≡ situation_after (situation self.old) (meant command.entry)) }
    {
        match self.line.take() {
            Some(mut line) => {
                let reply = self.serve(heap, &mut line, command);
                self.line = Some(line);
                reply
            }
            None => self.begin(command).map_err(Failure::Refused),
        }
    }

    // The first command that is done is an opening.
    fn begin(&mut self, command: Command) -> Result<Reply, TraceFault>
        requires { self.old.line ≡ None }
        ensures answer { told_reply result ≡ reply_to (situation self.old) (meant command.entry) }
        ensures after { situation self.new ≡ situation_after (situation self.old) (meant command.entry) }
    {
        let Command::Open(opening) = command else {
            return Err(TraceFault::Order);
        };
        self.line = Some(self.open_line(opening)?);
        Ok(Reply::Opened)
    }

    // A command to the line in service, which is handed in. A match, since a trace's lines are data.
    fn serve(
        &mut self,
        heap: Global,
        line: &mut Line<ChosenRule, ChosenNotifier>,
        command: Command,
    ) -> Result<Reply, Failure<TraceFault>>
        ensures answer { unless_memory result (λ x. told_reply x ≡ serving_reply (state line.old self.old.frames self.old.wire) (meant command.entry)) }
        ensures after { unless_memory result (λ _. serving (state line.new self.new.frames self.new.wire) ≡ serving_after (state line.old self.old.frames self.old.wire) (meant command.entry)) }
    {
        let reply = match command {
            Command::Open(_) => Err(TraceFault::Order),
            Command::Offer { flow, length } => {
                self.call(line, Call::Offer(Identity { flow }, length))
            }
            Command::Leave => self.call(line, Call::Leave),
            Command::Deliver => self.call(line, Call::Deliver),
            Command::Receive { digits } => return self.receive(heap, line, digits),
            Command::Wait(wait) => self.call(line, Call::Wait(wait)),
            Command::Rates(flow) => Ok(Reply::Held(line.rates_of(Identity { flow }))),
            Command::Columns => Ok(Reply::Listed(line.listing())),
        };
        reply.map_err(Failure::Refused)
    }

    // A record by its digits. Digits that are none have no bytes, so that the call itself refuses them.
    fn receive(
        &mut self,
        heap: Global,
        line: &mut Line<ChosenRule, ChosenNotifier>,
        digits: &[u8],
    ) -> Result<Reply, Failure<TraceFault>>
        ensures answer { unless_memory result (λ x. told_reply x ≡ serving_reply (state line.old self.old.frames self.old.wire) (receives digits.now)) }
        ensures after { unless_memory result (λ _. serving (state line.new self.new.frames self.new.wire) ≡ serving_after (state line.old self.old.frames self.old.wire) (receives digits.now)) }
    {
        let reply = match hex_bytes(heap, digits) {
            Ok(bytes) => self.call(line, Call::Receive(bytes.as_slice())),
            Err(Failure::Refused(_)) => self.call(line, Call::Receive(&[])),
            Err(Failure::Memory) => return Err(Failure::Memory),
        };
        reply.map_err(Failure::Refused)
    }

    // A call on the line, whose answer or refusal is the trace's.
    fn call(
        &mut self,
        line: &mut Line<ChosenRule, ChosenNotifier>,
        call: Call,
    ) -> Result<Reply, TraceFault>
        ensures answer { told_reply result ≡ call_reply (state line.old self.old.frames self.old.wire) (said call.entry) }
        ensures after { serving (state line.new self.new.frames self.new.wire) ≡ call_after (state line.old self.old.frames self.old.wire) (said call.entry) }
        ensures line { self.new.line ≡ self.old.line }
    {
        Ok(Reply::Answered(line.make_call(&mut self.frames, &mut self.wire, call)?))
    }
}
