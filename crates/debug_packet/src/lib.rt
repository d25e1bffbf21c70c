//! What the packets of GDB's remote protocol ask. `read_packet` reads the body of a packet as a
//! `Packet`; one that isn't known is `Unknown`, and one that isn't of its form is `Malformed`.
#![tactic(auto)]

mod fields;
mod files;
mod laws;
mod letters;
mod packet;
mod queries;
mod reading;
#[cfg(test)]
mod tests;

pub use laws::written_law;
pub use packet::{Command, FileRequest, Object, Packet, Point, Purpose, Range, Way};
pub use reading::read_packet;
