//! A folder and a sink that log their calls.
#![tactic(auto)]

mod entries;
mod folder;
mod logged;
mod sink;

pub use folder::LoggedFetch;
pub use logged::{Logged, LoggedFolder, LoggedSink};
pub use sink::LoggedPut;
pub use wind_outside::FetchOutcome;
