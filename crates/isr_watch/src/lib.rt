//! Watchdog timers (VxWorks 5.4 Reference Manual, wdLib), and the interrupt level at which their
//! routines and those of devices run.
#![tactic(auto)]

mod laws;
mod listing;
mod watch;
mod watchdog;

pub use laws::{ids_law, kept_law, link_law};
pub use watch::Watch;
pub use watchdog::{Routine, Timer, Watchdog};
