//! How an outcome is shown in one line.

ghost use Rattle.std.specs.Prelude.{◌≡◌, ◌++◌, OnOk};
ghost use Rattle.sweep_run.specs.Shown.{shown};

use trace_text::{add, add_escaped};
use wind_base::{NoMemory, bytes_after, first_bytes, line_len};

/// Adds an outcome in one line: its lines with ` | ` between each two. Bytes that aren't plain are
/// shown as `\xNN`.
pub fn add_shown(text: &mut Vec<u8>, outcome: &[u8]) -> Result<(), NoMemory>
    ensures { OnOk result (text.new.items ≡ text.old.items ++ shown outcome.now) }
{
    let mut rest = outcome;
    let mut length = line_len(rest);
    while length < rest.len() {
        add_escaped(text, first_bytes(rest, length))?;
        add(text, b" | ")?;
        rest = bytes_after(rest, length + 1);
        length = line_len(rest);
    }
    add_escaped(text, rest)
}
