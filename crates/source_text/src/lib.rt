//! Texts that a user writes: lines, which line feeds end, and their words, which blanks part; numbers
//! and strings of a source text, a selection of the literals of C.
#![tactic(auto)]

ghost use Rattle.std.specs.Prelude.{◌≡◌, ◌<◌, length};
ghost use Rattle.source_text.specs.Lines.{after_line as after_line_lem};

mod number;
mod quoted;
mod word;
mod words;

pub use number::number_of;
pub use quoted::{Text, escaped, string};
use wind_base::{bytes_after, line_len};
pub use word::{is_blank, is_word_byte, word_len};
pub use words::Blanks;

/// What comes after the first line and its end; empty, if no line comes after it.
pub fn after_line(text: &[u8]) -> &[u8]
    requires { 0 < length text.now }
    ensures value { result.now ≡ after_line_lem text.now }
    ensures shorter { length result.now < length text.now }
{
    let n = line_len(text);
    if n < text.len() {
        bytes_after(text, n + 1)
    } else {
        bytes_after(text, n)
    }
}
