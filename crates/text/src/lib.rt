// Lines of fields printed into a buffer that is handed in.
// `printed` has the fields, `printable` what has a text, `lines` the texts made of others, `writing` the call and its
// refusal.
#![tactic(auto)]

mod lines;
mod printable;
mod printed;
mod writing;

pub use lines::{Line, Table};
pub use printed::Printed;
pub use writing::{NoRoom, write};
