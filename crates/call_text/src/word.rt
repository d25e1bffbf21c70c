//! Words of a call and their texts.

ghost use Rattle.std.specs.Prelude.{◌≤◌, ◌*◌, length};
ghost use Rattle.wind_base.specs.OutBuf.{Added};
ghost use Rattle.call_text.specs.Texts.{list_text, more_text, word_text};

use wind_base::OutBuf;
use wind_base::text::{add, add_hex, add_signed};

/// A word of a call, by the form in which it is shown.
#[derive(Clone, Copy, Debug, Default, PartialEq, Eq)]
pub enum Word {
    /// An id, a count, a time or another number: signed, in decimal digits.
    Number(u32),
    /// An address or an error number: in hexadecimal digits, after `0x`.
    Hex(u32),
    /// Words on the caller's stack that are outside RAM: `?`.
    Unreadable,
    /// The rest of the words, which the call doesn't contain: `..`. It is also what an `ArrayVec`
    /// fills its unused places with.
    #[default]
    Rest,
}

/// Adds a word: at most 11 bytes.
pub(crate) fn add_word(out: &mut OutBuf, word: Word)
    requires { 11 ≤ out.old.room }
    ensures { Added 11 out.old out.new (word_text word) }
{
    match word {
        Word::Number(v) => add_signed(out, v),
        Word::Hex(v) => {
            add(out, b"0x");
            add_hex(out, v);
        }
        Word::Unreadable => add(out, b"?"),
        Word::Rest => add(out, b".."),
    }
}

/// Adds each word, after a comma and a blank: at most 13 bytes a word.
pub(crate) fn add_more(out: &mut OutBuf, words: &[Word])
    requires { 13 * length words.now ≤ out.old.room }
    ensures { Added (13 * length words.now) out.old out.new (more_text words.now) }
{
    for word in words {
        add(out, b", ");
        add_word(out, *word);
    }
}

/// Adds words, with a comma and a blank between each two: at most 13 bytes a word.
pub(crate) fn add_list(out: &mut OutBuf, words: &[Word])
    requires { 13 * length words.now ≤ out.old.room }
    ensures { Added (13 * length words.now) out.old out.new (list_text words.now) }
{
    if let [first, rest @ ..] = words {
        add_word(out, *first);
        add_more(out, rest);
    }
}
