//! The generated session: its console, its ticks, and the line that sums up its run.
#![tactic(auto)]

mod inputs;
mod summary;

pub use inputs::{console_of, schedule_of};
pub use summary::{Summary, put_all};
