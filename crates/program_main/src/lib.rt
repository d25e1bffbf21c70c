//! What a program's `main` does: it reads the words of the command line, runs the program on them,
//! and gives its exit status. And the messages of a program.
#![tactic(auto)]

mod message;
mod program;

pub use message::put_text;
pub use program::start;
