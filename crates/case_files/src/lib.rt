//! Files of test cases, one for each line: each is played, and compared with what its line says. An
//! empty line, or a line that begins with `#`, is not a case.
#![tactic(auto)]

mod playing;
mod reading;

pub use playing::{Player, play_files};
pub use reading::{Trouble, name, number};
