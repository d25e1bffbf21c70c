//! Tasks that wait for a tick, in the order in which they are due.
#![tactic(auto)]

mod delays;
mod gaps;
mod laws;

pub use delays::Delays;
