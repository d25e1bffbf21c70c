//! Which words of the loaded modules a run executes.
#![tactic(auto)]

mod bursts;
mod coverage;
mod covered;
mod executed;
mod laws;
mod table;
mod text;

pub use coverage::Coverage;
pub use executed::executed_next;
pub use laws::coverage_law;
