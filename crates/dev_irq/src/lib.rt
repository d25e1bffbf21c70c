//! The interrupt controller: for each device slot the connected routines, the mark "enabled" and
//! the count of pending interrupts. No call takes memory.
#![tactic(auto)]

mod controller;
mod laws;
mod line;

pub use controller::Irqs;
pub use laws::{count_law, kept_law, next_law};
pub use line::Line;
