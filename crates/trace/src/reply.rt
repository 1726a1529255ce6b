use line::listing::{FlowRates, Listing};
use tally::call::Answer;

// What an accepted line of a trace is answered.
#[derive(Clone, Copy)]
pub enum Reply {
    Opened,
    // By a call.
    Answered(Answer),
    // A flow's rates.
    Held(FlowRates),
    // The columns.
    Listed(Listing),
}
