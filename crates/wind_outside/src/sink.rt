//! Sinks of bytes.

ghost use Rattle.std.specs.Prelude.{◌≡◌, ℕ, ◌≤◌, List, [], ◌∷◌, Option};
ghost use Rattle.wind_outside.specs.Counts.{Rose};
ghost use Rattle.wind_outside.specs.Appending.{Appended, AppendedPrefix};
ghost use Rattle.wind_outside.specs.Requests.{GrowsBy, Piece, piece_of};
ghost use Rattle.wind_outside.specs.declared.sink.Put.TheVariants as puts;

/// The result of a put.
#[derive(Clone, Copy, Debug, PartialEq, Eq)]
pub enum Put {
    /// The whole piece was added.
    Done,
    /// Writing failed, and counts as a fault. A prefix of the piece may have been added.
    Failed,
}

/// A sink of bytes. No call runs out of memory.
///
/// A contract can see its bytes, the pieces put so far and its count of faults. A sink can leave
/// the bytes and the pieces untold. The count never falls, and stops at 2^64 - 1. A sink that tells
/// its pieces can stop telling them, since it can run out of memory for one more.
pub trait Sink {
    ghost bytes: { Self → Option (List ℕ) };

    ghost pieces: { Self → Option (List Piece) };

    ghost faults: { Self → ℕ };

    /// Adds a piece at the end. Every put is one more piece, however it ends.
    fn put(&mut self, piece: &[u8]) -> Put
        ensures done { result ≡ puts.Done → Appended (bytes self.old) (bytes self.new) piece.now }
        ensures part { AppendedPrefix (bytes self.old) (bytes self.new) piece.now }
        ensures noted { GrowsBy (pieces self.old) (pieces self.new) (piece_of piece.now result ∷ []) }
        ensures failed { result ≡ puts.Failed → Rose (faults self.old) (faults self.new) }
        ensures never_falls { faults self.old ≤ faults self.new };
}
