//! The parts of a text that is transferred.

ghost use Rattle.std.specs.Prelude.{◌≡◌, ◌++◌, drop, OnOk};
ghost use Rattle.debug_texts.specs.Parts.{part_text};

use debug_wire::{add, add_escaped};
use wind_base::{NoMemory, first_bytes};

// What a text has from an offset on.
fn rest_of(text: &[u8], at: u64) -> &[u8]
    ensures { result.now ≡ drop at text.now }
{
    if at < text.len() as u64 {
        &text[at as usize..]
    } else {
        &[]
    }
}

/// Adds the reply with a part of a text: `m` if more comes after it, or `l` if it is the last, and
/// its bytes, `count` of them from offset `at` on, or as many as there are.
pub fn add_part(reply: &mut Vec<u8>, text: &[u8], at: u64, count: u64) -> Result<(), NoMemory>
    ensures { OnOk result (reply.new.items ≡ reply.old.items ++ part_text text.now at count) }
{
    let rest = rest_of(text, at);
    let is_last = rest.len() as u64 <= count;
    add(reply, if is_last { b"l" } else { b"m" })?;
    add_escaped(reply, first_bytes(rest, count as usize))
}
