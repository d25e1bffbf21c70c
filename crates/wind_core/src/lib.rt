//! The kernel's tasks: which runs, which wait, and what calls and ticks do to them.
#![tactic(auto)]

mod clock;
mod fields;
mod kern;
mod laws;
mod notes;
mod queries;
mod queues;
mod settings;
mod tasks;
mod took;
mod waits;

pub use kern::Kern;
pub use laws::{kept_law, runner_law, tick_law, waiters_law, wake_all_law};
pub use settings::Setting;
pub use took::Took;
