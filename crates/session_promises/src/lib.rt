//! What holds at each instant of a session's run: the laws of the machine, of messages and of the
//! console, stated of the very run that a program leaves.
#![tactic(auto)]

mod laws;
mod program;

pub use laws::promise_law;
pub use program::play_program;
