//! Why a line is refused: the first token that can't stand in its place. It reads a line token by
//! token and makes no list of them, so it takes no host memory.

ghost use Rattle.std.specs.Prelude.{◌≡◌, ◌∷◌};

use crate::lexer::{directive, half, mark, word};
use crate::mnemonic::{Spelling, spelling_of};
use crate::operand::{Signed, address_at, number_at, part_at};
use crate::part::{Part, Reach, parts_of};
use crate::token::Token;
use source_text::{escaped, is_blank, is_word_byte};
use wind_base::first_bytes;

/// A part of a line.
#[derive(Drop)]
pub struct Place<'a> {
    /// The column of its first byte, counted in bytes from 1.
    pub column: usize,
    /// Its bytes; empty at the end of the line.
    pub bytes: &'a [u8],
}

/// Why the part of a line can't stand in its place.
#[derive(Clone, Copy, Debug)]
pub enum Reason {
    /// An operand is missing at the end of the line.
    Early,
    /// Such a token is expected.
    Expected(&'static str),
    /// The token isn't of the kind that is expected.
    No(&'static str),
    /// The number is above the greatest one allowed.
    Above(u32),
    /// The number is below the least one allowed, which is the negative of this one.
    Below(u32),
    /// The displacement of a branch isn't a multiple of 4.
    Unaligned,
    /// No operand is left to read.
    After,
    /// The string has no closing quote.
    Endless,
    /// None of these.
    Unknown,
}

/// Why a line is refused, and which part of it.
#[derive(Drop)]
pub struct Refusal<'a> {
    /// The part of the line.
    pub place: Place<'a>,
    /// The reason.
    pub reason: Reason,
}

// The bytes after the first `n`; an empty slice if there are fewer than `n`.
fn after(bytes: &[u8], n: usize) -> &[u8] {
    if n <= bytes.len() { &bytes[n..] } else { b"" }
}

// The bytes from the first token on; an empty slice if there is none.
fn at_token(bytes: &[u8]) -> &[u8] {
    let blanks = bytes.iter().take_while(|byte| is_blank(**byte)).count();
    let left = after(bytes, blanks);
    if left.starts_with(b"#".as_slice()) {
        b""
    } else {
        left
    }
}

// The number of bytes after a quote that belong to its string, with the closing quote.
fn string_len(bytes: &[u8]) -> usize {
    let mut escape = false;
    for (i, byte) in bytes.iter().enumerate() {
        if !escape && *byte == b'"' {
            return i + 1;
        }
        escape = !escape && *byte == b'\\';
    }
    bytes.len()
}

// The token that the bytes begin with, and its number of bytes after the first. A string counts as
// unknown.
fn first_token<'a>(first: u8, rest: &[u8], bytes: &'a [u8]) -> (Token<'a>, usize)
    requires { bytes.now ≡ first ∷ rest.now }
{
    if is_word_byte(first) {
        return word(first, rest, bytes);
    }
    match first {
        b'.' => directive(rest, bytes),
        b'@' => half(rest),
        b'"' => (Token::Unknown, string_len(rest)),
        _ => (mark(first), 0),
    }
}

// The token that the bytes begin with, and its number of bytes. The end of the line counts as
// unknown.
fn token_at<'a>(bytes: &'a [u8]) -> (Token<'a>, usize) {
    let [first, rest @ ..] = bytes else {
        return (Token::Unknown, 0);
    };
    let (token, len) = first_token(*first, rest, bytes);
    (token, len.saturating_add(1))
}

fn token_len(bytes: &[u8]) -> usize {
    let (_token, len) = token_at(bytes);
    len
}

// The bytes after the first `n` tokens.
fn after_tokens(bytes: &[u8], n: usize) -> &[u8] {
    let mut left = bytes;
    for _ in 0..n {
        let start = at_token(left);
        left = after(start, token_len(start));
    }
    left
}

// Token number `n`, counted from 0.
fn token<'a>(bytes: &'a [u8], n: usize) -> Token<'a> {
    let (token, _len) = token_at(at_token(after_tokens(bytes, n)));
    token
}

// The first tokens, as many as the longest operand has.
fn window<'a>(bytes: &'a [u8]) -> [Token<'a>; 4] {
    [
        token(bytes, 0),
        token(bytes, 1),
        token(bytes, 2),
        token(bytes, 3),
    ]
}

fn is_name(bytes: &[u8]) -> bool {
    matches!(token(bytes, 0), Token::Name(_))
}

fn is_dotted(bytes: &[u8]) -> bool {
    matches!(token(bytes, 0), Token::Dotted(_))
}

fn is_minus(bytes: &[u8]) -> bool {
    matches!(token(bytes, 0), Token::Minus)
}

// Whether a sign comes next.
fn is_sign(bytes: &[u8]) -> bool {
    matches!(token(bytes, 0), Token::Plus | Token::Minus)
}

fn is_number(bytes: &[u8]) -> bool {
    matches!(token(bytes, 0), Token::Number(_))
}

// Whether a sign comes next, and no number after it.
fn is_bare_sign(bytes: &[u8]) -> bool {
    is_sign(bytes) && !is_number(after_tokens(bytes, 1))
}

fn has_label(line: &[u8]) -> bool {
    is_name(line) && matches!(token(line, 1), Token::Colon)
}

// The bytes of a line after its label.
fn after_label(line: &[u8]) -> &[u8] {
    if has_label(line) {
        after_tokens(line, 2)
    } else {
        line
    }
}

// Where `left`, an end of the line, begins.
fn column(line: &[u8], left: &[u8]) -> usize {
    line.len().saturating_sub(left.len()).saturating_add(1)
}

// The first `count` tokens of `left`, an end of the line.
fn placed<'a>(line: &[u8], left: &'a [u8], count: usize) -> Place<'a> {
    let start = at_token(left);
    let from = if start.is_empty() { left } else { start };
    let len = start.len().saturating_sub(after_tokens(start, count).len());
    Place {
        column: column(line, from),
        bytes: first_bytes(start, len),
    }
}

/// The label of a line, without its colon; the first token if there is no label.
pub fn label_place<'a>(line: &'a [u8]) -> Place<'a> {
    placed(line, line, 1)
}

/// The mnemonic or directive of a line; its label if it has neither.
pub fn item_place<'a>(line: &'a [u8]) -> Place<'a> {
    let left = after_label(line);
    if at_token(left).is_empty() {
        label_place(line)
    } else {
        placed(line, left, 1)
    }
}

// The first `count` tokens of `left` are refused; the end of the line, if no token is left.
fn refused<'a>(line: &[u8], left: &'a [u8], count: usize, reason: Reason) -> Refusal<'a> {
    let place = placed(line, left, count);
    if place.bytes.is_empty() {
        Refusal {
            place,
            reason: Reason::Early,
        }
    } else {
        Refusal { place, reason }
    }
}

// Such a token is expected, also at the end of the line.
fn expected<'a>(line: &[u8], left: &'a [u8], token: &'static str) -> Refusal<'a> {
    Refusal {
        place: placed(line, left, 1),
        reason: Reason::Expected(token),
    }
}

fn unknown<'a>(line: &'a [u8]) -> Refusal<'a> {
    Refusal {
        place: label_place(line),
        reason: Reason::Unknown,
    }
}

fn starts_with_digit(bytes: &[u8]) -> bool {
    match bytes {
        [first, ..] => first.is_ascii_digit(),
        [] => false,
    }
}

// A number is expected, with an optional `-` before it.
fn no_number<'a>(line: &[u8], left: &'a [u8]) -> Refusal<'a> {
    let left = if is_minus(left) {
        after_tokens(left, 1)
    } else {
        left
    };
    if starts_with_digit(at_token(left)) {
        refused(line, left, 1, Reason::No("number of 32 bits"))
    } else {
        refused(line, left, 1, Reason::No("number"))
    }
}

fn range_reason(number: Signed, least: u32, greatest: u32) -> Reason {
    if number.negative {
        if number.size > least {
            return Reason::Below(least);
        }
    } else if number.size > greatest {
        return Reason::Above(greatest);
    }
    Reason::Unaligned
}

// The number that comes next is outside its range, or no number comes next.
fn number_refused<'a>(line: &[u8], left: &'a [u8], least: u32, greatest: u32) -> Refusal<'a> {
    let window = window(left);
    match number_at(&window) {
        Some(number) => {
            let count = number.count;
            refused(line, left, count, range_reason(number, least, greatest))
        }
        None => no_number(line, left),
    }
}

fn is_register(left: &[u8]) -> bool {
    let window = window(left);
    part_at(Part::Register(0), false, &window).is_some()
}

// The address that comes next has an invalid addend, or isn't followed by `@l`, `@h` or `@ha`.
fn half_refused<'a>(line: &[u8], left: &'a [u8]) -> Refusal<'a> {
    let rest = after_tokens(left, 1);
    if is_bare_sign(rest) {
        return no_number(line, after_tokens(rest, 1));
    }
    if is_sign(rest) {
        return expected(line, after_tokens(rest, 2), "@l, @h or @ha");
    }
    if is_register(left) {
        return refused(line, left, 1, Reason::No("number"));
    }
    expected(line, rest, "@l, @h or @ha")
}

fn immediate_refused<'a>(line: &[u8], left: &'a [u8], least: u32, greatest: u32) -> Refusal<'a> {
    if is_name(left) {
        half_refused(line, left)
    } else {
        number_refused(line, left, least, greatest)
    }
}

fn part_refused<'a>(line: &[u8], left: &'a [u8], part: Part) -> Refusal<'a> {
    match part {
        Part::Comma => refused(line, left, 1, Reason::Expected("','")),
        Part::Open => expected(line, left, "'('"),
        Part::Close => expected(line, left, "')'"),
        Part::Register(_) | Part::Twice(_, _) => refused(line, left, 1, Reason::No("register")),
        Part::Number(_, greatest) => number_refused(line, left, 0, greatest),
        Part::Special(_) => number_refused(line, left, 0, 1023),
        Part::Signed(_, greatest) => immediate_refused(line, left, 0x8000, greatest),
        Part::Unsigned(_) => immediate_refused(line, left, 0, 0xffff),
        Part::Target(_, Reach::Long) => number_refused(line, left, 0x200_0000, 0x1ff_ffff),
        Part::Target(_, Reach::Short) => number_refused(line, left, 0x8000, 0x7fff),
        Part::Fixed(_, _) => refused(line, left, 1, Reason::Unknown),
    }
}

// What stands after the last operand.
fn trailing<'a>(line: &'a [u8], left: &'a [u8]) -> Refusal<'a> {
    if at_token(left).is_empty() {
        unknown(line)
    } else {
        refused(line, left, 1, Reason::After)
    }
}

// What stands after the last operand, which was an address. A sign with a number may stand there.
fn after_address<'a>(line: &'a [u8], left: &'a [u8]) -> Refusal<'a> {
    if is_bare_sign(left) {
        no_number(line, after_tokens(left, 1))
    } else {
        trailing(line, left)
    }
}

fn operands_refused<'a>(line: &'a [u8], left: &'a [u8], spelling: Spelling) -> Refusal<'a> {
    let mut left = left;
    let mut address = false;
    for part in parts_of(spelling.shape) {
        let window = window(left);
        let Some(operand) = part_at(*part, spelling.absolute, &window) else {
            return part_refused(line, left, *part);
        };
        address = operand.reference.is_some();
        left = after_tokens(left, operand.count);
    }
    if address {
        after_address(line, left)
    } else {
        trailing(line, left)
    }
}

fn instruction_refused<'a>(line: &'a [u8], left: &'a [u8], name: &[u8]) -> Refusal<'a> {
    match spelling_of(name) {
        Some(spelling) => operands_refused(line, after_tokens(left, 1), spelling),
        None => refused(line, left, 1, Reason::No("instruction")),
    }
}

fn global_refused<'a>(line: &'a [u8], left: &'a [u8]) -> Refusal<'a> {
    if is_name(left) {
        trailing(line, after_tokens(left, 1))
    } else {
        refused(line, left, 1, Reason::No("name"))
    }
}

// The number of tokens of the number or address that comes next; 0 if there is none.
fn value_count(left: &[u8]) -> usize {
    let window = window(left);
    match number_at(&window) {
        Some(number) => number.count,
        None => match address_at(&window) {
            Some(address) => address.count,
            None => 0,
        },
    }
}

fn no_value<'a>(line: &[u8], left: &'a [u8]) -> Refusal<'a> {
    if is_minus(left) || starts_with_digit(at_token(left)) {
        no_number(line, left)
    } else {
        refused(line, left, 1, Reason::No("number or name"))
    }
}

fn after_value<'a>(line: &[u8], left: &'a [u8]) -> Refusal<'a> {
    refused(line, left, 1, Reason::Expected("','"))
}

fn values_refused<'a>(line: &'a [u8], left: &'a [u8]) -> Refusal<'a> {
    let mut left = left;
    for _ in 0..line.len() {
        let count = value_count(left);
        if count == 0 {
            return no_value(line, left);
        }
        let was_name = is_name(left);
        left = after_tokens(left, count);
        if was_name && is_bare_sign(left) {
            return no_number(line, after_tokens(left, 1));
        }
        if !matches!(token(left, 0), Token::Comma) {
            return after_value(line, left);
        }
        left = after_tokens(left, 1);
    }
    unknown(line)
}

fn bad_escape<'a>(line: &[u8], left: &'a [u8]) -> Refusal<'a> {
    Refusal {
        place: Place {
            column: column(line, left),
            bytes: first_bytes(left, 2),
        },
        reason: Reason::No("escape"),
    }
}

// The string whose opening quote `left` begins with is invalid, or something stands after it.
fn string_refused<'a>(line: &'a [u8], left: &'a [u8]) -> Refusal<'a> {
    let body = after(left, 1);
    let mut escape = false;
    for (i, byte) in body.iter().enumerate() {
        if escape && escaped(*byte).is_none() {
            return bad_escape(line, after(left, i));
        }
        if !escape && *byte == b'"' {
            return trailing(line, after(body, i + 1));
        }
        escape = !escape && *byte == b'\\';
    }
    refused(line, left, 1, Reason::Endless)
}

fn ascii_refused<'a>(line: &'a [u8], left: &'a [u8]) -> Refusal<'a> {
    let start = at_token(left);
    if start.starts_with(b"\"".as_slice()) {
        string_refused(line, start)
    } else {
        refused(line, left, 1, Reason::No("string"))
    }
}

// The number that is a directive's only operand is refused, or something stands after it.
fn only_number_refused<'a>(line: &'a [u8], left: &'a [u8], greatest: u32) -> Refusal<'a> {
    let window = window(left);
    match number_at(&window) {
        Some(number) if number.size == 0 || !number.negative && number.size <= greatest => {
            trailing(line, after_tokens(left, number.count))
        }
        _ => number_refused(line, left, 0, greatest),
    }
}

fn alignment_refused<'a>(line: &'a [u8], left: &'a [u8]) -> Refusal<'a> {
    let refusal = only_number_refused(line, left, 16);
    match refusal.reason {
        Reason::Unknown => refused(line, left, 1, Reason::No("alignment: 1, 2, 4, 8 or 16")),
        _ => refusal,
    }
}

fn dotted_refused<'a>(line: &'a [u8], left: &'a [u8], name: &[u8]) -> Refusal<'a> {
    let rest = after_tokens(left, 1);
    match name {
        b".text" | b".data" => trailing(line, rest),
        b".globl" => global_refused(line, rest),
        b".long" => values_refused(line, rest),
        b".ascii" => ascii_refused(line, rest),
        b".space" => only_number_refused(line, rest, 0x10000),
        b".align" => alignment_refused(line, rest),
        [b'.', ..] => refused(line, left, 1, Reason::No("directive")),
        _ => instruction_refused(line, left, name),
    }
}

/// Why `parse` refuses a line, without its line feed: the first token that can't stand there.
/// The result is unspecified for a line that `parse` reads.
pub fn refusal_of<'a>(line: &'a [u8]) -> Refusal<'a> {
    let left = after_label(line);
    let name = placed(line, left, 1).bytes;
    if is_name(left) {
        instruction_refused(line, left, name)
    } else if is_dotted(left) {
        dotted_refused(line, left, name)
    } else {
        refused(line, left, 1, Reason::No("instruction"))
    }
}
