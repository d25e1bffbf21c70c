//! The tokens of a line.

ghost use Rattle.std.specs.Prelude.{◌≡◌, ◌<◌, ◌≤◌, ◌+◌, ◌∷◌, IfOk, length};
ghost use Rattle.std.specs.List.{prefix_len};
ghost use Rattle.wind_base.specs.Limits.{longest_line};
ghost use Rattle.shell_parse.specs.Ascii.{is_file_byte as is_file_byte_lem};
ghost use Rattle.shell_parse.specs.Tokens.{word_token as word_token_lem, word_at, file_at, any_at, redirected as redirected_lem, token_at, after_name as after_name_lem, spot_after as spot_after_lem, tokens_of, bare, columns};

use crate::literal::{character, string_token};
use crate::sign::sign;
use crate::token::{Spot, Token, Word};
use crate::tree::BinOp;
use source_text::{is_blank, is_word_byte, number_of, string, word_len};
use std::alloc::{AllocError, Global};
use wind_base::bytes_after;

/// The tokens of a line, and the column of the first byte of each, counted from 1.
#[derive(Drop)]
pub(crate) struct Lexed<'a> {
    pub(crate) tokens: Vec<Token<'a>>,
    pub(crate) columns: Vec<u32>,
}

// Whether a byte may be in the name of a file.
fn is_file_byte(byte: u8) -> bool
    ensures { result ≡ is_file_byte_lem byte }
{
    !is_blank(byte) && byte != b';'
}

// How many of the first bytes may be in the name of a file.
fn file_len(bytes: &[u8]) -> usize
    ensures exact { result ≡ prefix_len is_file_byte_lem bytes.now }
    ensures inside { result ≤ length bytes.now }
{
    bytes.iter().take_while(|byte| is_file_byte(**byte)).count()
}

// The token of a word with this first byte.
fn word_token<'a>(first: u8, word: &'a [u8]) -> Token<'a>
    requires { length word.now ≤ longest_line }
    ensures { result ≡ word_token_lem first word.now }
{
    if !first.is_ascii_digit() {
        return Token::Name(Word { kept: word });
    }
    match number_of(word) {
        Some(n) => Token::Number(n),
        None => Token::Unknown,
    }
}

// A token, and how many bytes it has after its first.
type Found<'a> = Result<(Token<'a>, usize), AllocError>;

// In each of the functions below, `bytes` is the first byte and the rest.

fn word<'a>(first: u8, rest: &[u8], bytes: &'a [u8]) -> (Token<'a>, usize)
    requires bytes { bytes.now ≡ first ∷ rest.now }
    requires short { length bytes.now ≤ longest_line }
    ensures { result ≡ word_at first rest.now }
{
    let len = word_len(rest);
    (word_token(first, &bytes[..len + 1]), len)
}

fn file<'a>(first: u8, rest: &[u8], bytes: &'a [u8]) -> (Token<'a>, usize)
    requires bytes { bytes.now ≡ first ∷ rest.now }
    requires short { length bytes.now ≤ longest_line }
    ensures { result ≡ file_at first rest.now }
{
    if first == b';' {
        return (Token::Semi, 0);
    }
    let len = file_len(rest);
    let file = Word {
        kept: &bytes[..len + 1],
    };
    (Token::File(file), len)
}

fn any<'a>(alloc: Global, first: u8, rest: &[u8], bytes: &'a [u8]) -> Found<'a>
    requires bytes { bytes.now ≡ first ∷ rest.now }
    requires short { length bytes.now ≤ longest_line }
    ensures { IfOk result (λ x. x ≡ any_at first rest.now) }
{
    if is_word_byte(first) {
        return Ok(word(first, rest, bytes));
    }
    match first {
        b'\'' => Ok(character(rest)),
        b'"' => Ok(string_token(string(alloc, rest)?)),
        _ => Ok(sign(first, rest)),
    }
}

// After `ld`, `<` isn't a comparison.
fn redirected(token: Token) -> Token
    ensures { result ≡ redirected_lem token.entry }
{
    match token {
        Token::Operator(BinOp::Lt) => Token::Redirect,
        token => token,
    }
}

// The token at this spot that these bytes begin with, and how many bytes it has after its first.
// The first byte isn't a blank.
#[tactic(auto, unfolding(crate::specs::Tokens::token_at))]
fn first_token<'a>(alloc: Global, spot: Spot, first: u8, rest: &[u8], bytes: &'a [u8]) -> Found<'a>
    requires bytes { bytes.now ≡ first ∷ rest.now }
    requires short { length bytes.now ≤ longest_line }
    ensures { IfOk result (λ x. x ≡ token_at spot first rest.now) }
{
    match spot {
        Spot::AtFile => Ok(file(first, rest, bytes)),
        Spot::AfterLd => {
            let (token, len) = any(alloc, first, rest, bytes)?;
            Ok((redirected(token), len))
        }
        Spot::AtStart | Spot::Within => any(alloc, first, rest, bytes),
    }
}

fn after_name(name: &Word) -> Spot
    ensures { result ≡ after_name_lem name.now }
{
    if name.bytes() == b"ld".as_slice() {
        Spot::AfterLd
    } else {
        Spot::Within
    }
}

fn spot_after(spot: Spot, token: &Token) -> Spot
    ensures { result ≡ spot_after_lem spot token.now }
{
    match (spot, token) {
        (_, Token::Semi) => Spot::AtStart,
        (Spot::AtStart, Token::Name(name)) => after_name(name),
        (Spot::AfterLd, Token::Redirect) => Spot::AtFile,
        _ => Spot::Within,
    }
}

/// The tokens of a line, each with its column.
#[tactic(auto, unfolding(crate::specs::Tokens::tokens_of))]
pub(crate) fn tokens<'a>(alloc: Global, line: &'a [u8]) -> Result<Lexed<'a>, AllocError>
    requires { length line.now ≤ longest_line }
    ensures tokens { IfOk result (λ lexed. lexed.tokens.items ≡ bare (tokens_of line.now)) }
    ensures columns { IfOk result (λ lexed. lexed.columns.items ≡ columns (tokens_of line.now)) }
    ensures few { IfOk result (λ lexed. length lexed.tokens.items ≤ longest_line) }
{
    let mut tokens = Vec::new(alloc);
    let mut columns = Vec::new(alloc);
    let mut left = line;
    let mut column = 1;
    let mut spot = Spot::AtStart;
    while let Some((first, rest)) = left.split_first() {
        if is_blank(*first) {
            left = rest;
            column += 1;
            continue;
        }
        let (token, len) = first_token(alloc, spot, *first, rest, left)?;
        spot = spot_after(spot, &token);
        tokens.push(token)?;
        columns.push(column)?;
        left = bytes_after(rest, len);
        column += len as u32 + 1;
    }
    Ok(Lexed { tokens, columns })
}
