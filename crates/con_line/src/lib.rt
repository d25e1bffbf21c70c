//! The console: the edited line, and the finished lines, which are kept until they are read.
#![tactic(auto)]

mod console;
mod finished;
mod key;
mod laws;

pub use console::{ByteDone, Console, LINE_ROOM};
pub use laws::{kept_law, lines_law};
