//! A sink that logs its puts.

ghost use Rattle.std.specs.Prelude.{◌≡◌, IfOk};
ghost use Rattle.wind_outside.specs.Requests.{piece_of};
ghost use Rattle.outside_log.specs.Pieces.{piece_seen};

use crate::entries::with_entry;
use crate::logged::Logged;
use std::alloc::{AllocError, Global};
use wind_outside::{Put, Sink};

/// A put.
#[derive(Debug, Drop)]
pub struct LoggedPut {
    /// The piece.
    pub bytes: Vec<u8>,
    /// How it ended.
    pub outcome: Put,
}

// The log entry of a put.
fn entry_of(alloc: Global, piece: &[u8], outcome: Put) -> Result<LoggedPut, AllocError>
    ensures { IfOk result (λ entry. piece_seen entry ≡ piece_of piece.now outcome) }
{
    let bytes = Vec::from_slice(alloc, piece)?;
    Ok(LoggedPut { bytes, outcome })
}

impl<S: Sink + Drop> Sink for Logged<S, LoggedPut> {
    ghost use Rattle.outside_log.specs.Pieces.{pieces_seen};

    ghost bytes = { λ s. S.bytes s.inner };

    ghost pieces = { λ s. pieces_seen s.log };

    ghost faults = { λ s. S.faults s.inner };

    fn put(&mut self, piece: &[u8]) -> Put {
        let outcome = self.inner.put(piece);
        let entry = entry_of(self.alloc, piece, outcome);
        self.log = with_entry(self.log.take(), entry);
        outcome
    }
}
