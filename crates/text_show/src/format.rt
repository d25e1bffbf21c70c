//! The format of `printf`.

ghost use Rattle.std.specs.Prelude.{◌≡◌, ◌≤◌, ◌<◌, IfSome, length};
ghost use Rattle.std.specs.Char.{is_ascii_digit};
ghost use Rattle.std.specs.List.{list_any};
ghost use Rattle.text_show.specs.Format.{widest, is_minus, is_zero, is_flag as is_flag_lem, run_of, width_of as width_of_lem, size_of as size_of_lem, letter_of as letter_of_lem, first_letter as first_letter_lem, style_of as style_of_lem, conversion_at as conversion_at_lem};

use wind_base::{bytes_after, decimal};

// The greatest width.
const WIDEST: u64 = 999;

/// The kind of a conversion, by its letter.
#[derive(Clone, Copy, Debug, PartialEq, Eq)]
pub enum Letter {
    /// `d` and `i`: a signed number in decimal digits.
    Signed,
    /// `u`: an unsigned number in decimal digits.
    Unsigned,
    /// `x`: hexadecimal digits.
    LowerHex,
    /// `X`: hexadecimal digits in capitals.
    UpperHex,
    /// `o`: octal digits.
    Octal,
    /// `c`: one byte.
    Character,
    /// `s`: the string at an address.
    Text,
    /// `p`: an address.
    Pointer,
    /// `%`: the percent sign, which takes no value.
    Percent,
}

/// How a conversion's text is padded.
#[derive(Clone, Copy, Debug, PartialEq, Eq)]
pub struct Style {
    /// Left-justified.
    pub left: bool,
    /// Padded with zeros, if the text is a number.
    pub zero: bool,
    /// The least number of bytes.
    pub width: u32,
}

/// A conversion of a format.
#[derive(Clone, Copy, Debug, PartialEq, Eq)]
pub struct Conversion {
    /// How its text is padded.
    pub style: Style,
    /// Its kind.
    pub letter: Letter,
    /// How many bytes it takes after its `%`.
    pub taken: usize,
}

fn is_flag(byte: u8) -> bool
    ensures { result ≡ is_flag_lem byte }
{
    byte == b'-' || byte == b'0'
}

fn flag_run(bytes: &[u8]) -> usize
    ensures exact { result ≡ run_of is_flag_lem bytes.now }
    ensures inside { result ≤ length bytes.now }
{
    bytes.iter().take_while(|byte| is_flag(**byte)).count()
}

fn digit_run(bytes: &[u8]) -> usize
    ensures exact { result ≡ run_of is_ascii_digit bytes.now }
    ensures inside { result ≤ length bytes.now }
{
    bytes
        .iter()
        .take_while(|byte| byte.is_ascii_digit())
        .count()
}

// The width in decimal digits.
fn width_of(digits: &[u8]) -> Option<u32>
    ensures value { result ≡ width_of_lem digits.now }
    ensures within { IfSome result (λ n. n ≤ widest) }
{
    if digits.is_empty() {
        return Some(0);
    }
    match decimal(digits, WIDEST) {
        Some(width) => Some(width as u32),
        None => None,
    }
}

fn size_of(bytes: &[u8]) -> usize
    ensures exact { result ≡ size_of_lem bytes.now }
    ensures inside { result ≤ length bytes.now }
{
    match bytes.first() {
        Some(&(b'l' | b'h')) => 1,
        _ => 0,
    }
}

fn letter_of(byte: u8) -> Option<Letter>
    ensures { result ≡ letter_of_lem byte }
{
    match byte {
        b'd' | b'i' => Some(Letter::Signed),
        b'u' => Some(Letter::Unsigned),
        b'x' => Some(Letter::LowerHex),
        b'X' => Some(Letter::UpperHex),
        b'o' => Some(Letter::Octal),
        b'c' => Some(Letter::Character),
        b's' => Some(Letter::Text),
        b'p' => Some(Letter::Pointer),
        b'%' => Some(Letter::Percent),
        _ => None,
    }
}

fn first_letter(bytes: &[u8]) -> Option<Letter>
    ensures exact { result ≡ first_letter_lem bytes.now }
    ensures inside { IfSome result (λ _. 0 < length bytes.now) }
{
    match bytes.first() {
        Some(&byte) => letter_of(byte),
        None => None,
    }
}

fn has_minus(flags: &[u8]) -> bool
    ensures { result ≡ list_any is_minus flags.now }
{
    flags.iter().any(|flag| *flag == b'-')
}

fn has_zero(flags: &[u8]) -> bool
    ensures { result ≡ list_any is_zero flags.now }
{
    flags.iter().any(|flag| *flag == b'0')
}

fn style_of(flags: &[u8], width: u32) -> Style
    ensures { result ≡ style_of_lem flags.now width }
{
    Style {
        left: has_minus(flags),
        zero: has_zero(flags),
        width,
    }
}

/// The conversion that these bytes begin with; they come after its `%`.
#[tactic(auto, unfolding(crate::specs::Format::conversion_at))]
pub(crate) fn conversion_at(bytes: &[u8]) -> Option<Conversion>
    ensures value { result ≡ conversion_at_lem bytes.now }
    ensures inside { IfSome result (λ c. c.taken ≤ length bytes.now) }
    ensures width { IfSome result (λ c. c.style.width ≤ widest) }
{
    let flags = flag_run(bytes);
    let after_flags = bytes_after(bytes, flags);
    let digits = digit_run(after_flags);
    let after_width = bytes_after(after_flags, digits);
    let size = size_of(after_width);
    let width = width_of(&after_flags[..digits])?;
    let letter = first_letter(bytes_after(after_width, size))?;
    Some(Conversion {
        style: style_of(&bytes[..flags], width),
        letter,
        taken: flags + digits + size + 1,
    })
}
