//! Binary and counting semaphores (VxWorks 5.4 Reference Manual, semBLib, semCLib and semLib).
#![tactic(auto)]

mod laws;
mod plain;
mod plans;
mod semaphore;

pub use laws::{calls_law, kernel_law, waiters_law};
pub use plain::Plain;
pub use semaphore::{Semaphore, may_hold};
pub use wind_core::Took;
