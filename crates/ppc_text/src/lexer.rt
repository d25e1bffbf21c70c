//! The tokens of a line.

ghost use Rattle.std.specs.Prelude.{◌≡◌, ◌≤◌, ◌+◌, ◌∷◌, IfOk, length, take};
ghost use Rattle.source_text.specs.Numbers.{number_of as number_of_lem};
ghost use Rattle.ppc_text.specs.Tokens.{number_token as number_token_lem, name_token as name_token_lem, word_token as word_token_lem, word_len as word_len_lem, dot_first as dot_first_lem, plain_at, word_at, half_of as half_of_lem, half_token as half_token_lem, string_token as string_token_lem, mark_of, token_at, tokens_of};

use crate::token::{Half, Token, Word};
use source_text::{Text, is_blank, is_word_byte, number_of, string, word_len};
use std::alloc::{AllocError, Global};
use wind_base::bytes_after;
use wind_base::limits::NAME_BYTES;

fn dot_first(bytes: &[u8]) -> usize
    ensures exact { result ≡ dot_first_lem bytes.now }
    ensures inside { result ≤ length bytes.now }
{
    match bytes {
        [b'.', ..] => 1,
        _ => 0,
    }
}

fn number_token<'a>(word: &[u8]) -> Token<'a>
    ensures { result ≡ number_token_lem (number_of_lem word.now) }
{
    match number_of(word) {
        Some(n) => Token::Number(n),
        None => Token::Unknown,
    }
}

fn name_token<'a>(word: &'a [u8]) -> Token<'a>
    ensures { result ≡ name_token_lem word.now }
{
    if word.len() <= NAME_BYTES {
        Token::Name(Word { kept: word })
    } else {
        Token::Unknown
    }
}

// The token of a word with this first byte.
fn word_token<'a>(first: u8, word: &'a [u8]) -> Token<'a>
    ensures { result ≡ word_token_lem first word.now }
{
    if first.is_ascii_digit() {
        number_token(word)
    } else {
        name_token(word)
    }
}

// Below, `bytes` is the first byte followed by `rest`. The number beside a token counts the bytes of `rest` that
// belong to it.

fn plain_word<'a>(first: u8, rest: &[u8], bytes: &'a [u8]) -> (Token<'a>, usize)
    requires { bytes.now ≡ first ∷ rest.now }
    ensures { result ≡ plain_at first rest.now }
{
    let len = word_len(rest);
    (word_token(first, &bytes[..len + 1]), len)
}

pub(crate) fn word<'a>(first: u8, rest: &[u8], bytes: &'a [u8]) -> (Token<'a>, usize)
    requires { bytes.now ≡ first ∷ rest.now }
    ensures { result ≡ word_at first rest.now }
{
    if first.is_ascii_digit() {
        return plain_word(first, rest, bytes);
    }
    let len = word_len(rest);
    let whole = len + dot_first(bytes_after(rest, len));
    if whole == len {
        return plain_word(first, rest, bytes);
    }
    let kept = &bytes[..whole + 1];
    (Token::Dotted(Word { kept }), whole)
}

pub(crate) fn directive<'a>(rest: &[u8], bytes: &'a [u8]) -> (Token<'a>, usize)
    requires { bytes.now ≡ 46 ∷ rest.now }
    ensures { result ≡ (Token.Dotted (46 ∷ take (word_len_lem rest.now) rest.now), word_len_lem rest.now) }
{
    let len = word_len(rest);
    let kept = &bytes[..len + 1];
    (Token::Dotted(Word { kept }), len)
}

fn half_of(word: &[u8]) -> Option<Half>
    ensures { result ≡ half_of_lem word.now }
{
    match word {
        b"l" => Some(Half::Low),
        b"h" => Some(Half::High),
        b"ha" => Some(Half::HighAdjusted),
        _ => None,
    }
}

fn half_token<'a>(half: Option<Half>) -> Token<'a>
    ensures { result ≡ half_token_lem half }
{
    match half {
        Some(half) => Token::Part(half),
        None => Token::Unknown,
    }
}

pub(crate) fn half<'a>(rest: &[u8]) -> (Token<'a>, usize)
    ensures { result ≡ (half_token_lem (half_of_lem (take (word_len_lem rest.now) rest.now)), word_len_lem rest.now) }
{
    let len = word_len(rest);
    (half_token(half_of(&rest[..len])), len)
}

fn string_token<'a>(read: Option<(Text, usize)>) -> (Token<'a>, usize)
    ensures { result ≡ string_token_lem read }
{
    match read {
        Some((text, len)) => (Token::Str(text), len),
        None => (Token::Unknown, 0),
    }
}

pub(crate) fn mark<'a>(byte: u8) -> Token<'a>
    ensures { result ≡ mark_of byte }
{
    match byte {
        b':' => Token::Colon,
        b',' => Token::Comma,
        b'(' => Token::Open,
        b')' => Token::Close,
        b'+' => Token::Plus,
        b'-' => Token::Minus,
        _ => Token::Unknown,
    }
}

// The token that the bytes begin with, and its number of bytes after the first. The first byte isn't a blank.
#[tactic(auto, unfolding(crate::specs::Tokens::token_at))]
fn first_token<'a>(
    alloc: Global,
    first: u8,
    rest: &[u8],
    bytes: &'a [u8],
) -> Result<(Token<'a>, usize), AllocError>
    requires { bytes.now ≡ first ∷ rest.now }
    ensures { IfOk result (λ x. x ≡ token_at first rest.now) }
{
    if is_word_byte(first) {
        return Ok(word(first, rest, bytes));
    }
    match first {
        b'.' => Ok(directive(rest, bytes)),
        b'"' => Ok(string_token(string(alloc, rest)?)),
        b'@' => Ok(half(rest)),
        _ => Ok((mark(first), 0)),
    }
}

/// The tokens of a line. A comment, from `#` on, has none.
#[tactic(auto, unfolding(crate::specs::Tokens::tokens_of))]
pub(crate) fn tokens<'a>(alloc: Global, line: &'a [u8]) -> Result<Vec<Token<'a>>, AllocError>
    ensures { IfOk result (λ tokens. tokens.items ≡ tokens_of line.now) }
{
    let mut tokens = Vec::new(alloc);
    let mut left = line;
    while let Some((first, rest)) = left.split_first() {
        if is_blank(*first) {
            left = rest;
            continue;
        }
        if *first == b'#' {
            break;
        }
        let (token, len) = first_token(alloc, *first, rest, left)?;
        tokens.push(token)?;
        left = bytes_after(rest, len);
    }
    Ok(tokens)
}
