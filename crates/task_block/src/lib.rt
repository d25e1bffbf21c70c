//! The kernel's record of one task.
#![tactic(auto)]

mod status;
mod task;
#[cfg(test)]
mod tests;

pub use status::Status10;
pub use task::{NewTask, Task};
