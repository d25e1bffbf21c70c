//! `printf`.

ghost use Rattle.std.specs.Prelude.{◌≡◌, ◌+◌, ◌<◌, ◌≤◌, ◌^◌, ◌++◌, take, IfSome, length, option_map};
ghost use Rattle.wind_base.specs.Limits.{longest_print};
ghost use Rattle.text_show.specs.Format.{pieces, conversion_of as conversion_of_lem};
ghost use Rattle.text_show.specs.Printf.{Prints, source_of, conversion_text, values_of as values_of_lem, value_at, is_minus_word as is_minus_word_lem, magnitude as magnitude_lem, sign_of as sign_of_lem, digits_of as digits_of_lem, number_text, plain_text, string_of as string_of_lem, text_of, printf_of, written, format_text};

use crate::format::{Conversion, Letter, Style, conversion_at};
use crate::numeral::{Digits, numeral};
use crate::text::{self, Text};
use crate::values::Values;
use arrayvec::ArrayVec;
use board_mem::{Ram, RamString};
use wind_base::{OutBuf, bytes_after};

// Whether a word is negative as a signed number.
fn is_minus_word(v: u32) -> bool
    ensures { result ≡ is_minus_word_lem v }
{
    v >= 0x8000_0000
}

// The absolute value of a word as a signed number.
fn magnitude(v: u32) -> u32
    ensures { result ≡ magnitude_lem v }
{
    if is_minus_word(v) {
        u32::MAX - v + 1
    } else {
        v
    }
}

// What comes before the digits.
fn sign_of(letter: Letter, v: u32) -> &'static [u8]
    ensures { result.now ≡ sign_of_lem letter v }
{
    match letter {
        Letter::Signed if is_minus_word(v) => b"-",
        Letter::Pointer => b"0x",
        _ => b"",
    }
}

// The digits of a number.
fn digits_of(letter: Letter, v: u32) -> Digits
    ensures { result.items ≡ digits_of_lem letter v }
{
    match letter {
        Letter::Signed => numeral(10, false, magnitude(v)),
        Letter::Unsigned => numeral(10, false, v),
        Letter::LowerHex | Letter::Pointer => numeral(16, false, v),
        Letter::UpperHex => numeral(16, true, v),
        Letter::Octal => numeral(8, false, v),
        Letter::Character | Letter::Text | Letter::Percent => ArrayVec::new(),
    }
}

// Adds a number.
fn add_number(text: &mut Text, style: Style, letter: Letter, v: u32)
    ensures { text.new.items ≡ take longest_print (text.old.items ++ number_text style letter v) }
{
    let digits = digits_of(letter, v);
    text::add_filled(text, style, true, sign_of(letter, v), digits.as_slice());
}

// Adds a text that isn't a number.
fn add_plain(text: &mut Text, style: Style, body: &[u8])
    ensures { text.new.items ≡ take longest_print (text.old.items ++ plain_text style body.now) }
{
    text::add_filled(text, style, false, b"", body);
}

impl Values<'_> {
    // The string at the address that a value gives.
    fn string(&self, n: u32) -> Option<RamString>
        ensures { result ≡ string_of_lem self.now.ram.now.bytes (value_at (source_of self.now) n) }
    {
        let ram = self.ram;
        match self.get(n) {
            Some(at) => ram.string(at),
            None => None,
        }
    }
}

// Adds the text of a conversion, whose first value has number `n`. Returns false if what it takes
// can't be read.
fn add_conversion(text: &mut Text, values: &Values, n: u32, style: Style, letter: Letter) -> bool
    ensures { Prints (conversion_text (source_of values.now) n style letter) result text.old.items text.new.items }
{
    match letter {
        Letter::Percent => add_plain(text, style, b"%"),
        Letter::Text => match values.string(n) {
            Some(string) => add_plain(text, style, string.bytes()),
            None => return false,
        },
        Letter::Character => match values.get(n) {
            Some(v) => add_plain(text, style, &[(v % 256) as u8]),
            None => return false,
        },
        _ => match values.get(n) {
            Some(v) => add_number(text, style, letter, v),
            None => return false,
        },
    }
    true
}

// How many values a conversion takes.
fn values_of(letter: Letter) -> u32
    ensures exact { result ≡ values_of_lem letter }
    ensures within { result ≤ 1 }
{
    match letter {
        Letter::Percent => 0,
        _ => 1,
    }
}

// The conversion of `byte` and `rest`, if `byte` is `%` and `rest` begins with a conversion.
fn conversion_of(byte: u8, rest: &[u8]) -> Option<Conversion>
    ensures value { result ≡ conversion_of_lem byte rest.now }
    ensures inside { IfSome result (λ c. c.taken ≤ length rest.now) }
{
    if byte == b'%' {
        conversion_at(rest)
    } else {
        None
    }
}

// The text of a format, cut to the longest. `None` if a value that it takes can't be read.
fn format_text(values: &Values, format: &[u8]) -> Option<Text>
    requires { length format.now < 2 ^ 32 }
    ensures { option_map (λ t. t.items) result
        ≡ option_map (take longest_print) (text_of (source_of values.now) 0 (pieces 0 format.now)) }
{
    let mut text = ArrayVec::new();
    let mut rest = format;
    let mut n = 0;
    while let Some((&byte, after_byte)) = rest.split_first() {
        match conversion_of(byte, after_byte) {
            None => {
                text::add(&mut text, &[byte]);
                rest = after_byte;
            }
            Some(c) => {
                if !add_conversion(&mut text, values, n, c.style, c.letter) {
                    return None;
                }
                n += values_of(c.letter);
                rest = bytes_after(after_byte, c.taken);
            }
        }
    }
    Some(text)
}

// The text of the format at an address.
#[tactic(auto, unfolding(crate::specs::Printf::printf_of))]
fn text_at(values: &Values, format: u32) -> Option<Text>
    ensures { option_map (λ t. t.items) result ≡ printf_of (source_of values.now) format }
{
    let ram = values.ram;
    match ram.string(format) {
        Some(format) => format_text(values, format.bytes()),
        None => None,
    }
}

/// Writes what a format asks for, at most 4,096 bytes; the rest is dropped. The values are the
/// seven given ones, and then the words from 8 bytes above the stack pointer on. Returns the number
/// of bytes written. If the format, or a string or a word that it needs, can't be read, it returns
/// `None` and writes nothing.
pub fn printf_text(
    format: u32,
    first: &[u32; 7],
    stack: u32,
    ram: &Ram,
    out: &mut OutBuf,
) -> Option<u32>
    requires { longest_print ≤ out.old.room }
    ensures count { result
        ≡ option_map length (printf_of (record { first = first.now; stack = stack; ram = ram.now.bytes }) format) }
    ensures text { out.new
        ≡ written out.old (printf_of (record { first = first.now; stack = stack; ram = ram.now.bytes }) format) }
{
    let values = Values { first, stack, ram };
    let text = text_at(&values, format)?;
    let _ = out.put(text.as_slice());
    Some(text.len() as u32)
}
