//! Operators and punctuation.

ghost use Rattle.std.specs.Prelude.{◌≡◌};
ghost use Rattle.shell_parse.specs.Signs.{or_set as or_set_lem, token_of as token_of_lem, or_twice as or_twice_lem, shift_at, angle_at, mark_of, comparison_at, comparing_at, sign_at};

use crate::literal::next_is;
use crate::token::Token;
use crate::tree::BinOp;

fn or_set<'a>(op: BinOp, bytes: &[u8]) -> (Token<'a>, usize)
    ensures { result ≡ or_set_lem op bytes.now }
{
    if next_is(b'=', bytes) {
        (Token::Set(Some(op)), 1)
    } else {
        (Token::Operator(op), 0)
    }
}

fn token_of<'a>(op: Option<BinOp>) -> Token<'a>
    ensures { result ≡ token_of_lem op }
{
    match op {
        Some(op) => Token::Operator(op),
        None => Token::Unknown,
    }
}

fn or_twice<'a>(byte: u8, twice: Option<BinOp>, op: BinOp, bytes: &[u8]) -> (Token<'a>, usize)
    ensures { result ≡ or_twice_lem byte twice op bytes.now }
{
    if next_is(byte, bytes) {
        (token_of(twice), 1)
    } else {
        or_set(op, bytes)
    }
}

// A shift or its assignment; these bytes follow its first byte.
fn shift<'a>(op: BinOp, bytes: &[u8]) -> (Token<'a>, usize)
    ensures { result ≡ shift_at op bytes.now }
{
    match bytes {
        [_, rest @ ..] if next_is(b'=', rest) => (Token::Set(Some(op)), 2),
        _ => (Token::Operator(op), 1),
    }
}

// A comparison followed by an equals sign, or one without.
fn comparison<'a>(with_equals: BinOp, alone: BinOp, bytes: &[u8]) -> (Token<'a>, usize)
    ensures { result ≡ comparison_at with_equals alone bytes.now }
{
    if next_is(b'=', bytes) {
        (Token::Operator(with_equals), 1)
    } else {
        (Token::Operator(alone), 0)
    }
}

// A shift if the byte comes twice, else a comparison.
fn angle<'a>(
    byte: u8,
    shifted: BinOp,
    with_equals: BinOp,
    alone: BinOp,
    bytes: &[u8],
) -> (Token<'a>, usize)
    ensures { result ≡ angle_at byte shifted with_equals alone bytes.now }
{
    if next_is(byte, bytes) {
        shift(shifted, bytes)
    } else {
        comparison(with_equals, alone, bytes)
    }
}

fn mark<'a>(byte: u8) -> Token<'a>
    ensures { result ≡ mark_of byte }
{
    match byte {
        b'~' => Token::Com,
        b'(' => Token::Open,
        b')' => Token::Close,
        b',' => Token::Comma,
        b';' => Token::Semi,
        _ => Token::Unknown,
    }
}

fn comparing<'a>(byte: u8, bytes: &[u8]) -> (Token<'a>, usize)
    ensures { result ≡ comparing_at byte bytes.now }
{
    match byte {
        b'<' => angle(byte, BinOp::Shl, BinOp::Le, BinOp::Lt, bytes),
        b'>' => angle(byte, BinOp::Shr, BinOp::Ge, BinOp::Gt, bytes),
        b'=' if next_is(byte, bytes) => (Token::Operator(BinOp::Eq), 1),
        b'=' => (Token::Set(None), 0),
        b'!' if next_is(b'=', bytes) => (Token::Operator(BinOp::Ne), 1),
        b'!' => (Token::Not, 0),
        _ => (mark(byte), 0),
    }
}

/// The operator or punctuation that begins with this byte, and how many of the bytes after it
/// belong to it.
#[tactic(auto, unfolding(crate::specs::Signs::sign_at))]
pub(crate) fn sign<'a>(byte: u8, bytes: &[u8]) -> (Token<'a>, usize)
    ensures { result ≡ sign_at byte bytes.now }
{
    match byte {
        b'+' => or_twice(byte, None, BinOp::Plus, bytes),
        b'-' => or_twice(byte, None, BinOp::Minus, bytes),
        b'&' => or_twice(byte, Some(BinOp::AndAlso), BinOp::And, bytes),
        b'|' => or_twice(byte, Some(BinOp::OrElse), BinOp::Or, bytes),
        b'^' => or_set(BinOp::Xor, bytes),
        b'*' => or_set(BinOp::Times, bytes),
        b'/' => or_set(BinOp::Over, bytes),
        b'%' => or_set(BinOp::Rest, bytes),
        _ => comparing(byte, bytes),
    }
}
