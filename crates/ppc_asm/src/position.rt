//! Where and why a line of a source text is refused, as text.

use arrayvec::ArrayString;
use asm_lines::Cause;
use ppc_text::{Place, Reason, Refusal, item_place, label_place, refusal_of};
use std::fmt::Write;
use wind_base::{bytes_after, first_bytes, line_len};

/// The most bytes of a token that a message shows.
const TOKEN_BYTES: usize = 24;

/// The most bytes of a token as text: it is cut with `..`.
const TOKEN_ROOM: usize = 26;

/// The most bytes of a reason as text.
const REASON_ROOM: usize = 128;

/// A reason as text.
pub(crate) type ReasonText = ArrayString<REASON_ROOM>;

/// Where and why a line is refused.
#[derive(Drop)]
pub(crate) struct Position {
    /// The column of the first byte that can't stand there, counted in bytes from 1.
    pub column: usize,
    /// The reason as text.
    pub reason: ReasonText,
}

// A line of a text, by its number, counted from 1; empty if there are fewer lines.
fn line_at(text: &[u8], number: u64) -> &[u8] {
    let mut left = text;
    for _ in 1..number {
        let len = line_len(left);
        left = bytes_after(left, len);
        if !left.is_empty() {
            left = bytes_after(left, 1);
        }
    }
    first_bytes(left, line_len(left))
}

// A byte as a message shows it: `?` if it isn't printable ASCII.
fn printable(byte: u8) -> char {
    if byte.is_ascii_graphic() || byte == b' ' {
        byte as char
    } else {
        '?'
    }
}

// A token as a message shows it.
fn token_text(token: &[u8]) -> ArrayString<TOKEN_ROOM> {
    let mut text = ArrayString::new();
    for byte in first_bytes(token, TOKEN_BYTES) {
        let _ = text.try_push(printable(*byte));
    }
    if token.len() > TOKEN_BYTES {
        let _ = text.try_push_str("..");
    }
    text
}

// The token in quotes, and these words after it.
fn words_of(token: &[u8], words: &str) -> ReasonText {
    let mut text = ArrayString::new();
    let token = token_text(token);
    let token = token.as_str();
    let _ = write!(text, "'{token}' {words}");
    text
}

fn reason_text(refusal: &Refusal) -> ReasonText {
    let mut text = ArrayString::new();
    let token = token_text(refusal.place.bytes);
    let token = token.as_str();
    let _ = match refusal.reason {
        Reason::Early => write!(text, "the line ends too early"),
        Reason::Expected(mark) => write!(text, "{mark} is expected"),
        Reason::No(kind) => write!(text, "'{token}' is no {kind}"),
        Reason::Above(greatest) => write!(text, "{token} is above {greatest}"),
        Reason::Below(0) => write!(text, "{token} is below 0"),
        Reason::Below(size) => write!(text, "{token} is below -{size}"),
        Reason::Unaligned => write!(text, "{token} is no multiple of 4"),
        Reason::After => write!(text, "'{token}' stands after the last operand"),
        Reason::Endless => write!(text, "the string has no closing quote"),
        Reason::Unknown => write!(text, "the line"),
    };
    text
}

fn refusal_position(refusal: Refusal) -> Position {
    Position {
        column: refusal.place.column,
        reason: reason_text(&refusal),
    }
}

fn token_position(token: Place, words: &str) -> Position {
    Position {
        column: token.column,
        reason: words_of(token.bytes, words),
    }
}

/// Where and why a line of a source text is refused for a cause. Lines are counted from 1.
pub(crate) fn position_of(text: &[u8], number: u64, cause: Cause) -> Position {
    let line = line_at(text, number);
    match cause {
        Cause::BadLine => refusal_position(refusal_of(line)),
        Cause::BadPlace => token_position(item_place(line), "isn't in .text at a multiple of 4"),
        Cause::BadWord => token_position(
            item_place(line),
            "is no instruction of the processor with these operands",
        ),
        Cause::Twice => token_position(label_place(line), "is the label of an earlier line too"),
        Cause::TooLarge => token_position(
            item_place(line),
            "passes a limit: 1 MiB a section, 65535 names, labels or relocations",
        ),
    }
}
