//! A text that is put after a run.

ghost use Rattle.std.specs.Prelude.{◌≡◌, ◌≢◌, ◌≤◌};
ghost use Rattle.wind_outside.specs.Counts.{Rose};
ghost use Rattle.trace_session.specs.Traced.{IsPutOf};
ghost use Rattle.wind_session.specs.declared.run.RunEnd.TheVariants as ends;

use wind_outside::{Put, Sink};
use wind_session::RunEnd;

/// Puts a text. The run before it ended like this.
pub(crate) fn put_text<O: Sink>(out: &mut O, text: &[u8], end: RunEnd) -> RunEnd
    ensures put { IsPutOf text.now result end (O.bytes out.old) (O.bytes out.new) }
    ensures fault { end ≢ ends.WriteFault → result ≡ ends.WriteFault → Rose (O.faults out.old) (O.faults out.new) }
    ensures faults { O.faults out.old ≤ O.faults out.new }
{
    match out.put(text) {
        Put::Done => end,
        Put::Failed => RunEnd::WriteFault,
    }
}
