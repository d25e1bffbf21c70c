//! A byte buffer with reserved room.

ghost use Rattle.std.specs.Prelude.{◌≡◌, ◌+◌, ◌<◌, ◌↔◌, [], length, IfOk, OnOk, OnErr, IsErr};
ghost use Rattle.wind_base.specs.OutBuf.{appended};

use crate::{Full, NoMemory};
use std::alloc::Global;
use std::marker::Model;

/// Bytes, and room for more. Adding bytes that fit the room takes no memory.
#[derive(Drop)]
pub struct OutBuf {
    bytes: Vec<u8>,
    room: usize,
}

impl Model for OutBuf {
    ghost use Rattle.std.specs.Prelude.{◌+◌, ◌≤◌, vec_capacity, vec_len};
    ghost use Rattle.wind_base.specs.OutBuf.{Output};

    ghost Value = { Output };

    ghost view = { λ o. record { bytes = o.bytes.items; room = o.room } };

    ghost invariant = { λ o. vec_len o.bytes + o.room ≤ vec_capacity o.bytes };
}

impl OutBuf {
    /// An empty buffer with room for `room` bytes.
    pub fn reserved(alloc: Global, room: u32) -> Result<OutBuf, NoMemory>
        ensures { IfOk result (λ out. out ≡ record { bytes = []; room = room }) }
    {
        let bytes = Vec::with_capacity(alloc, room as usize)?;
        Ok(OutBuf {
            bytes,
            room: room as usize,
        })
    }

    /// Adds the piece at the end. `Full` if it is longer than the room left; then nothing changes.
    pub fn put(&mut self, piece: &[u8]) -> Result<(), Full>
        ensures full { IsErr result ↔ (self.old.room < length piece.now) }
        ensures ok { OnOk result (self.new ≡ appended self.old piece.now) }
        ensures err { OnErr result (self.new ≡ self.old) }
    {
        if piece.len() > self.room {
            return Err(Full);
        }
        if self.bytes.extend_from_slice(piece).is_err() {
            return Err(Full);
        }
        self.room -= piece.len();
        Ok(())
    }

    /// Adds room for `more` bytes.
    pub fn grow(&mut self, more: u32) -> Result<(), NoMemory>
        ensures ok { OnOk result (self.new ≡ record self.old { room = self.old.room + more }) }
        ensures err { OnErr result (self.new ≡ self.old) }
    {
        let Some(room) = self.room.checked_add(more as usize) else {
            return Err(NoMemory);
        };
        if self.bytes.reserve(room).is_err() {
            return Err(NoMemory);
        }
        self.room = room;
        Ok(())
    }

    /// Removes all bytes. Their space becomes room again.
    pub fn clear(&mut self)
        ensures { self.new ≡ record { bytes = []; room = self.old.room + length self.old.bytes } }
    {
        self.room += self.bytes.len();
        self.bytes.clear();
    }

    /// The bytes held.
    pub fn bytes(&self) -> &[u8]
        ensures { result.now ≡ self.now.bytes }
    {
        &self.bytes
    }

    /// How many more bytes fit.
    pub fn room(&self) -> usize
        ensures { result ≡ self.now.room }
    {
        self.room
    }
}
