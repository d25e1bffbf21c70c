//! Characters and strings.

ghost use Rattle.std.specs.Prelude.{◌≡◌};
ghost use Rattle.shell_parse.specs.Ascii.{next_is as next_is_lem};
ghost use Rattle.shell_parse.specs.Literals.{escaped_character as escaped_character_lem, character_at, string_token as string_token_lem};

use crate::token::Token;
use source_text::{Text, escaped};

/// Whether the first byte is this one.
pub(crate) fn next_is(byte: u8, bytes: &[u8]) -> bool
    ensures { result ≡ next_is_lem byte bytes.now }
{
    match bytes {
        [next, ..] => *next == byte,
        [] => false,
    }
}

fn escaped_character<'a>(value: Option<u8>, bytes: &[u8]) -> (Token<'a>, usize)
    ensures { result ≡ escaped_character_lem value bytes.now }
{
    match value {
        Some(value) if next_is(b'\'', bytes) => (Token::Number(value as u32), 3),
        _ => (Token::Unknown, 0),
    }
}

/// The character whose opening quote these bytes follow, and how many of them belong to it.
pub(crate) fn character<'a>(bytes: &[u8]) -> (Token<'a>, usize)
    ensures { result ≡ character_at bytes.now }
{
    match bytes {
        [first, second, rest @ ..] => {
            if *first == b'\\' {
                escaped_character(escaped(*second), rest)
            } else if *first != b'\'' && *second == b'\'' {
                (Token::Number(*first as u32), 2)
            } else {
                (Token::Unknown, 0)
            }
        }
        _ => (Token::Unknown, 0),
    }
}

/// The token of a string, and how many bytes belong to it.
pub(crate) fn string_token<'a>(read: Option<(Text, usize)>) -> (Token<'a>, usize)
    ensures { result ≡ string_token_lem read }
{
    match read {
        Some((text, len)) => (Token::Str(text), len),
        None => (Token::Unknown, 0),
    }
}
