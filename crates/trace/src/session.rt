use line::uplink::Line;
use line::uplink::opening::{MOST_FRAMES, MOST_NOTICES};
use notifiers::chosen::ChosenNotifier;
use rates::chosen::ChosenRule;
use tally::frame::Frame;
use tally::notice::Notice;

pub mod obeying;
pub mod opening;

// The line that a trace opens, with its memories.
#[derive(Drop)]
pub struct Session {
    line: Option<Line<ChosenRule, ChosenNotifier>>,
    frames: [Frame; MOST_FRAMES],
    wire: [Notice; MOST_NOTICES],
}
