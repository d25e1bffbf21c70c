//! Mutexes, whose owners inherit the priorities of the tasks that wait for them.
#![tactic(auto)]

mod deletes;
mod early;
mod gives;
mod laws;
mod mutexes;
mod owners;
mod plans;
mod settling;
mod takes;

pub use laws::kept_law;
pub use mutexes::Mutexes;
pub use wind_core::Took;
