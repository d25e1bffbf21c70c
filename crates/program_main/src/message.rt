//! Messages of a program.

ghost use Rattle.std.specs.Prelude.{map};
ghost use Rattle.std.specs.List.{concat};
ghost use Rattle.program_main.specs.Messages.{PutsText};

use wind_outside::{Put, Sink};

/// Puts the pieces of a text in order. The first put that fails ends the text.
pub fn put_text<E: Sink>(err: &mut E, pieces: &[&[u8]]) -> Put
    ensures { PutsText (concat (map (λ p. p.now) pieces.now)) result (E.bytes err.old) (E.bytes err.new)
        (E.faults err.old) (E.faults err.new) }
{
    for piece in pieces {
        match err.put(piece) {
            Put::Failed => return Put::Failed,
            Put::Done => {}
        }
    }
    Put::Done
}
