//! The line that shows a value.

ghost use Rattle.std.specs.Prelude.{◌≤◌};
ghost use Rattle.wind_base.specs.OutBuf.{Added};
ghost use Rattle.text_show.specs.Value.{character_text, value_text};

use wind_base::OutBuf;
use wind_base::text::{add, add_hex, add_signed};

// Adds the character of a word, if it is a printable ASCII character.
fn add_character(out: &mut OutBuf, v: u32)
    requires { 6 ≤ out.old.room }
    ensures { Added 6 out.old out.new (character_text v) }
{
    if 32 <= v && v <= 126 {
        add(out, &[b' ', b'=', b' ', b'\'', v as u8, b'\'']);
    }
}

/// Adds the line that shows a value: at most 64 bytes.
pub fn value_line(v: u32, out: &mut OutBuf)
    requires { 64 ≤ out.old.room }
    ensures { Added 64 out.old out.new (value_text v) }
{
    add(out, b"value = ");
    add_signed(out, v);
    add(out, b" = 0x");
    add_hex(out, v);
    add_character(out, v);
    add(out, b"\n");
}
