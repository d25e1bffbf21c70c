//! The board's bus: RAM, and the devices in their slots.
#![tactic(auto)]

mod access;
mod bus;
mod laws;
mod slots;

pub use bus::BoardBus;
pub use laws::{multiple_law, removal_law};
