//! Ready tasks, by priority and by order of arrival.
#![tactic(auto)]

mod laws;
mod map;
mod ready;

pub use ready::Ready;
