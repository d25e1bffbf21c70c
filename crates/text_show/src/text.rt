//! A text that is at most as long as one `printf` may write; the rest is dropped.

ghost use Rattle.std.specs.Prelude.{◌≡◌, ◌+◌, ◌≤◌, ◌++◌, take, replicate, length};
ghost use Rattle.wind_base.specs.Limits.{longest_print};
ghost use Rattle.text_show.specs.Columns.{blanks, zeros};
ghost use Rattle.text_show.specs.Printf.{filled};

use crate::format::Style;
use arrayvec::ArrayVec;
use wind_base::first_bytes;
use wind_base::limits::PRINTF_BYTES;

/// The text of one `printf`.
pub(crate) type Text = ArrayVec<u8, TEXT_ROOM>;

// The greatest length of such a text, in bytes.
const TEXT_ROOM: usize = PRINTF_BYTES as usize;

// Adds bytes for which there is room.
fn push_all(text: &mut Text, piece: &[u8])
    requires { length text.old.items + length piece.now ≤ longest_print }
    ensures { text.new.items ≡ text.old.items ++ piece.now }
{
    let _ = text.try_extend_from_slice(piece);
}

/// Adds bytes.
pub(crate) fn add(text: &mut Text, piece: &[u8])
    ensures { text.new.items ≡ take longest_print (text.old.items ++ piece.now) }
{
    let room = TEXT_ROOM - text.len();
    push_all(text, first_bytes(piece, room));
}

// Adds a byte `times` times.
fn add_times(text: &mut Text, byte: u8, times: usize)
    ensures { text.new.items ≡ take longest_print (text.old.items ++ replicate times byte) }
{
    let room = TEXT_ROOM - text.len();
    for _ in 0..times.min(room) {
        text.push(byte);
    }
}

// Adds a text, and then blanks.
fn add_left(text: &mut Text, sign: &[u8], body: &[u8], more: usize)
    ensures { text.new.items ≡ take longest_print (text.old.items ++ (sign.now ++ body.now ++ blanks more)) }
{
    add(text, sign);
    add(text, body);
    add_times(text, b' ', more);
}

// Adds a text with zeros after its sign.
fn add_zeros(text: &mut Text, sign: &[u8], body: &[u8], more: usize)
    ensures { text.new.items ≡ take longest_print (text.old.items ++ (sign.now ++ zeros more ++ body.now)) }
{
    add(text, sign);
    add_times(text, b'0', more);
    add(text, body);
}

// Adds blanks, and then a text.
fn add_right(text: &mut Text, sign: &[u8], body: &[u8], more: usize)
    ensures { text.new.items ≡ take longest_print (text.old.items ++ (blanks more ++ sign.now ++ body.now)) }
{
    add_times(text, b' ', more);
    add(text, sign);
    add(text, body);
}

/// Adds a sign and a body, padded as the style says.
pub(crate) fn add_filled(text: &mut Text, style: Style, number: bool, sign: &[u8], body: &[u8])
    ensures { text.new.items ≡ take longest_print (text.old.items ++ filled style number sign.now body.now) }
{
    let more = (style.width as usize)
        .saturating_sub(sign.len())
        .saturating_sub(body.len());
    if style.left {
        add_left(text, sign, body, more);
    } else if number && style.zero {
        add_zeros(text, sign, body, more);
    } else {
        add_right(text, sign, body, more);
    }
}
