//! What an input is made of.

ghost use Rattle.std.specs.Prelude.{◌≡◌, ◌++◌, OnOk};
ghost use Rattle.debug_wire.specs.Frames.{acknowledgement as acknowledgement_lem, checksum as checksum_lem, framed};

use crate::bytes::Bytes;
use crate::text::{add, add_places};
use wind_base::NoMemory;

/// What a reader finds in its input. Acknowledgements, interrupts (0x03) and other bytes between
/// packets are passed over.
#[derive(Drop)]
pub enum Frame {
    /// A packet, with its body.
    Packet(Bytes),
    /// A packet with a wrong checksum, or with a body of more than 0x8000 bytes.
    Damaged,
    /// The last reply is asked for again.
    Resend,
}

impl Frame {
    /// What is sent at once: `+` for a packet, `-` for a damaged one.
    pub fn acknowledgement(&self) -> &'static [u8]
        ensures { result.now ≡ acknowledgement_lem self.now }
    {
        match self {
            Frame::Packet(_) => b"+",
            Frame::Damaged => b"-",
            Frame::Resend => b"",
        }
    }
}

/// The checksum of a body: the sum of its bytes modulo 256.
pub(crate) fn checksum(body: &[u8]) -> u8
    ensures { result ≡ checksum_lem body.now }
{
    let mut total = 0u8;
    for byte in body {
        total = total.wrapping_add(*byte);
    }
    total
}

/// Adds the frame of a body, which is escaped already if it has binary data.
#[tactic(auto, unfolding(crate::specs::Frames::framed))]
pub fn add_framed(text: &mut Vec<u8>, body: &[u8]) -> Result<(), NoMemory>
    ensures { OnOk result (text.new.items ≡ text.old.items ++ framed body.now) }
{
    add(text, b"$")?;
    add(text, body)?;
    add(text, b"#")?;
    add_places(text, 2, u64::from(checksum(body)))
}
