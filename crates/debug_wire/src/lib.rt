//! GDB's remote serial protocol on the wire: the frames of an input, read one byte at a time, the
//! frame of a reply, and texts of numbers, ids of threads and bytes. The GDB manual describes them
//! in "Overview", "Packets" and "Packet Acknowledgment" of its appendix on the protocol.
#![tactic(auto)]

mod bytes;
mod frame;
mod laws;
mod number;
mod reader;
#[cfg(test)]
mod tests;
mod text;

pub use bytes::{Bytes, decoded};
pub use frame::{Frame, add_framed};
pub use laws::{bytes_law, escape_law, number_law, reader_law, reads_back_law};
pub use number::{ThreadId, hex_number, thread_id};
pub use reader::Reader;
pub use text::{add, add_bytes, add_decimal, add_escaped, add_number, add_places};
