//! Reading a packet.

ghost use Rattle.std.specs.Prelude.{◌≡◌, IfOk};
ghost use Rattle.debug_packet.specs.Packets.{packet_of};

use crate::files::v_packet;
use crate::letters::letter_packet;
use crate::packet::Packet;
use crate::queries::query;
use std::alloc::Global;
use wind_base::NoMemory;

/// What the body of a packet asks. It allocates memory for the names of files and for commands
/// only.
#[tactic(auto, unfolding(crate::specs::Packets::packet_of))]
pub fn read_packet(alloc: Global, body: &[u8]) -> Result<Packet, NoMemory>
    ensures { IfOk result (λ packet. packet ≡ packet_of body.now) }
{
    let [letter, rest @ ..] = body else {
        return Ok(Packet::Unknown);
    };
    match *letter {
        b'q' => query(alloc, rest),
        b'v' => v_packet(alloc, rest),
        letter => Ok(letter_packet(letter, rest)),
    }
}
