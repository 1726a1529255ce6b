// A line of a trace as a command, or why it is none.
//
// `command`: what a line can say. `misread`: why it says nothing, and where. `columns`: where a field begins.
// `reading`: what a line says.
#![tactic(auto)]

pub mod columns;
pub mod command;
pub mod misread;
pub mod reading;
mod verb;
