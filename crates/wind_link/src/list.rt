//! Reads a list.

ghost use Rattle.std.specs.Prelude.{◌≡◌, ◌<◌, ◌≤◌, length, map, option_map, Ok, Err, IfOk, IfErr, true};
ghost use Rattle.std.specs.List.{list_all};
ghost use Rattle.std.specs.Char.{digit_value};
ghost use Rattle.std.specs.Str.Parse.{digits_value};
ghost use Rattle.wind_link.specs.Lists.{first_word as first_word_lem, after_word as after_word_lem, mode_of, is_hex as is_hex_lem, address_of, places_said, most_lines, row_of, rows_of};
ghost use Rattle.wind_link.specs.Rows.{row as row_lem, name_of, first_line as first_line_lem, TellsLine};

use module_image::Places;
use source_text::{Blanks, after_line};
use std::alloc::Global;
use std::str;
use wind_base::line_len;

/// The most lines of a list.
const LINES: usize = 256;

/// The number of digits of an address.
const DIGITS: usize = 8;

/// The mode of a load that adds no symbols.
const NO_SYMBOLS: u32 = 0xffff_ffff;

/// What a line says.
#[derive(Clone, Copy, Debug, Drop)]
pub(crate) struct Row<'a> {
    /// The name of the module.
    pub name: &'a str,
    /// The mode of its load.
    pub mode: u32,
    /// The places of its segments.
    pub at: Places,
}

/// Why a list isn't read.
#[derive(Clone, Copy, Debug, PartialEq, Eq)]
pub(crate) enum ListErr {
    /// The number of the first bad line, counted from 1.
    BadLine(u64),
    /// Host memory ran out.
    NoMemory,
}

// The first word.
fn first_word(text: &[u8]) -> &[u8]
    ensures { result.now ≡ first_word_lem text.now }
{
    Blanks::Spaces.first_word(text)
}

// What comes after the first word and the blanks after it.
fn after_word(text: &[u8]) -> &[u8]
    ensures { result.now ≡ after_word_lem text.now }
{
    Blanks::Spaces.after_word(text)
}

// The name that a word is.
fn name(word: &[u8]) -> Option<&str>
    ensures { option_map (λ n. n.now) result ≡ name_of word.now }
{
    if word.is_empty() {
        return None;
    }
    match str::from_utf8(word) {
        Ok(name) => Some(name),
        Err(_) => None,
    }
}

// The load mode that a digit stands for.
fn mode(word: &[u8]) -> Option<u32>
    ensures { result ≡ mode_of word.now }
{
    match word {
        b"0" => Some(0),
        b"1" => Some(1),
        b"2" => Some(NO_SYMBOLS),
        _ => None,
    }
}

fn is_hex(byte: u8) -> bool
    ensures { result ≡ is_hex_lem byte }
{
    b'0' <= byte && byte <= b'9' || b'a' <= byte && byte <= b'f'
}

fn all_hex(word: &[u8]) -> bool
    ensures { result ≡ list_all is_hex_lem word.now }
{
    word.iter().all(|byte| is_hex(*byte))
}

// The value of a digit.
fn hex_digit(byte: u8) -> u8
    requires { is_hex_lem byte ≡ true }
    ensures value { result ≡ digit_value byte }
    ensures small { result < 16 }
{
    if byte <= b'9' {
        byte - b'0'
    } else {
        byte - b'a' + 10
    }
}

// The number that 8 digits write.
fn hex_value(digits: &[u8]) -> u32
    requires digits { list_all is_hex_lem digits.now ≡ true }
    requires few { length digits.now ≡ 8 }
    ensures { result ≡ digits_value 16 digits.now }
{
    let mut value = 0u64;
    for byte in digits {
        value = value * 16 + u64::from(hex_digit(*byte));
    }
    value as u32
}

// The address that a word writes.
fn address(word: &[u8]) -> Option<u32>
    ensures { result ≡ address_of word.now }
{
    if word.len() == DIGITS && all_hex(word) {
        Some(hex_value(word))
    } else {
        None
    }
}

// The places that three words say.
fn places(text: &[u8]) -> Option<Places>
    ensures { result ≡ places_said text.now }
{
    let rest = after_word(text);
    let at = Places {
        text: address(first_word(text))?,
        data: address(first_word(rest))?,
        bss: address(after_word(rest))?,
    };
    Some(at)
}

// What a line says.
#[tactic(auto, unfolding(crate::specs::Lists::row_of))]
fn read_row(line: &[u8]) -> Option<Row<'_>>
    ensures { option_map row_lem result ≡ row_of line.now }
{
    let rest = after_word(line);
    let name = name(first_word(line))?;
    let mode = mode(first_word(rest))?;
    let at = places(after_word(rest))?;
    Some(Row { name, mode, at })
}

// The first line of a text, without its end.
fn first_line(text: &[u8]) -> &[u8]
    ensures { result.now ≡ first_line_lem text.now }
{
    &text[..line_len(text)]
}

/// The rows of a list, or its first bad line.
pub(crate) fn rows<'a>(alloc: Global, text: &'a [u8]) -> Result<Vec<Row<'a>>, ListErr>
    ensures rows { IfOk result (λ v. rows_of text.now ≡ Ok (map row_lem v.items)) }
    ensures few { IfOk result (λ v. length v.items ≤ most_lines) }
    ensures bad { IfErr result (TellsLine (rows_of text.now)) }
{
    let mut rows = Vec::new(alloc);
    let mut rest = text;
    while !rest.is_empty() {
        let number = rows.len() as u64 + 1;
        if rows.len() >= LINES {
            return Err(ListErr::BadLine(number));
        }
        let Some(row) = read_row(first_line(rest)) else {
            return Err(ListErr::BadLine(number));
        };
        match rows.push(row) {
            Ok(()) => rest = after_line(rest),
            Err(_) => return Err(ListErr::NoMemory),
        }
    }
    Ok(rows)
}
