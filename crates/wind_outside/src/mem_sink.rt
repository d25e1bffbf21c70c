//! A sink in memory.

ghost use Rattle.std.specs.Prelude.{◌≡◌, ◌<◌, ◌≤◌, ◌⊎◌, ◌↔◌, [], ◌∷◌, Some, None, IfOk, Contains, length};
ghost use Rattle.wind_outside.specs.Counts.{Rose};
ghost use Rattle.wind_outside.specs.Appending.{Appended, AppendedPrefix};
ghost use Rattle.wind_outside.specs.Requests.{GrowsBy, piece_of};
ghost use Rattle.wind_outside.specs.MemSink.{after_put};
ghost use Rattle.wind_outside.specs.declared.sink.Put.TheVariants as puts;

use crate::calls::Calls;
use crate::{Put, Sink};
use std::alloc::Global;
use std::marker::Model;
use wind_base::{NoMemory, OutBuf};

/// A sink in memory, which tells its bytes. A put fails if its number is listed, or if its piece is
/// longer than the room left. A put that fails adds nothing.
#[derive(Drop)]
pub struct MemSink {
    out: OutBuf,
    calls: Calls,
}

impl Model for MemSink {
    ghost use Rattle.wind_outside.specs.MemSink.{MemSinkState};

    ghost Value = { MemSinkState };

    ghost view = { λ s. record { out = s.out; calls = s.calls } };
}

impl MemSink {
    /// An empty sink with room for `room` bytes. `failing` lists the numbers, from 1 on, of the
    /// calls of `put` that fail.
    pub fn reserved(alloc: Global, room: u32, failing: Vec<u64>) -> Result<MemSink, NoMemory>
        ensures { IfOk result (λ s. s ≡ record {
          out = record { bytes = []; room = room };
          calls = record { failing = failing.items; made = 0; faults = 0 };
        }) }
    {
        let out = OutBuf::reserved(alloc, room)?;
        Ok(MemSink {
            out,
            calls: Calls::new(failing),
        })
    }

    /// The bytes held.
    pub fn bytes(&self) -> &[u8]
        ensures { result.now ≡ self.now.out.bytes }
    {
        self.out.bytes()
    }
}

impl Sink for MemSink {
    ghost use Rattle.std.specs.Prelude.{None};

    ghost bytes = { λ s. Some s.out.bytes };

    ghost pieces = { λ _. None };

    ghost faults = { λ s. s.calls.faults };

    fn put(&mut self, piece: &[u8]) -> Put
        ensures done { result ≡ puts.Done → Appended (Some self.old.out.bytes) (Some self.new.out.bytes) piece.now }
        ensures part { AppendedPrefix (Some self.old.out.bytes) (Some self.new.out.bytes) piece.now }
        ensures noted { GrowsBy None None (piece_of piece.now result ∷ []) }
        ensures failed { result ≡ puts.Failed → Rose self.old.calls.faults self.new.calls.faults }
        ensures never_falls { self.old.calls.faults ≤ self.new.calls.faults }

        ensures listed { (result ≡ puts.Failed)
            ↔ (Contains self.old.calls.failing self.new.calls.made ⊎ (self.old.out.room < length piece.now)) }
        ensures after { self.new ≡ after_put self.old piece.now result }
    {
        if self.calls.count(piece.len() > self.out.room()) {
            return Put::Failed;
        }
        let _ = self.out.put(piece);
        Put::Done
    }
}
