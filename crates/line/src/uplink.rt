use limiters::table::Table;
use rates::regime::Regime;
use ring::fifo::Ring;
use tally::fault::OpenFault;

pub mod arriving;
pub mod calling;
pub mod leaving;
pub mod offering;
pub mod opening;
pub mod reading;
pub mod serving;
mod sizing;
pub mod waiting;

// The rate control of one uplink. The memory for waiting frames, and that for notices under way, are lent to each call.
// The two are lent side by side: a struct with a `&mut` in it gets no proof of what a call leaves behind it.
#[derive(Drop)]
pub struct Line<R, N> {
    regime: Regime<R>,
    notifier: N,
    table: Table,
    // frames that wait
    frames: Ring,
    // notices under way
    wire: Ring,
    // pages of 256 bytes that the waiting frames take
    pages: u32,
}

// Why a line was not opened, and all that was to go into it.
#[derive(Drop)]
pub struct NotOpened<R, N> {
    pub fault: OpenFault,
    pub regime: Regime<R>,
    pub notifier: N,
}
