//! Pieces of text, added to a text that grows.

ghost use Rattle.std.specs.Prelude.{◌≡◌, ◌++◌, OnOk};
ghost use Rattle.std.specs.Fmt.{decimal};
ghost use Rattle.trace_text.specs.Pieces.{escaped, escaped_byte as escaped_byte_lem, is_plain as is_plain_lem, signed, word_hex};

use itoa::Buffer;
use wind_base::NoMemory;
use wind_base::text::glyph;

/// Adds bytes.
pub fn add(text: &mut Vec<u8>, bytes: &[u8]) -> Result<(), NoMemory>
    ensures { OnOk result (text.new.items ≡ text.old.items ++ bytes.now) }
{
    if text.extend_from_slice(bytes).is_err() {
        return Err(NoMemory);
    }
    Ok(())
}

/// Adds a number in decimal digits.
pub fn add_decimal(text: &mut Vec<u8>, n: u64) -> Result<(), NoMemory>
    ensures { OnOk result (text.new.items ≡ text.old.items ++ decimal n) }
{
    let mut digits = Buffer::new();
    add(text, digits.format(n).as_bytes())
}

/// Adds a text and then a number.
pub(crate) fn add_with(text: &mut Vec<u8>, words: &[u8], n: u64) -> Result<(), NoMemory>
    ensures { OnOk result (text.new.items ≡ text.old.items ++ (words.now ++ decimal n)) }
{
    add(text, words)?;
    add_decimal(text, n)
}

/// Adds a long number in decimal digits.
pub fn add_wide(text: &mut Vec<u8>, n: u128) -> Result<(), NoMemory>
    ensures { OnOk result (text.new.items ≡ text.old.items ++ decimal n) }
{
    let mut digits = Buffer::new();
    add(text, digits.format(n).as_bytes())
}

/// Adds a word as a signed number in decimal digits.
pub(crate) fn add_signed(text: &mut Vec<u8>, n: u32) -> Result<(), NoMemory>
    ensures { OnOk result (text.new.items ≡ text.old.items ++ signed n) }
{
    let mut digits = Buffer::new();
    add(text, digits.format(n.cast_signed()).as_bytes())
}

/// Adds a word as `0x` and its hexadecimal digits.
pub(crate) fn add_hex(text: &mut Vec<u8>, n: u32) -> Result<(), NoMemory>
    ensures { OnOk result (text.new.items ≡ text.old.items ++ word_hex n) }
{
    let digits = match format!(in *text.allocator(); "{n:x}") {
        Ok(digits) => digits,
        Err(_) => return Err(NoMemory),
    };
    add(text, b"0x")?;
    add(text, digits.as_bytes())
}

// Whether a byte is shown as it is: from 0x20 to 0x7E, but neither the backslash nor the quote.
fn is_plain(byte: u8) -> bool
    ensures { result ≡ is_plain_lem byte }
{
    (0x20..=0x7e).contains(&byte) && byte != b'\\' && byte != b'"'
}

// Adds a byte; one that isn't plain as `\xNN`.
fn add_byte(text: &mut Vec<u8>, byte: u8) -> Result<(), NoMemory>
    ensures { OnOk result (text.new.items ≡ text.old.items ++ escaped_byte_lem byte) }
{
    if is_plain(byte) {
        return add(text, &[byte]);
    }
    let (high, low) = (u32::from(byte) / 16, u32::from(byte) % 16);
    add(text, &[b'\\', b'x', glyph(false, high), glyph(false, low)])
}

/// Adds bytes, those that aren't plain as `\xNN`.
pub fn add_escaped(text: &mut Vec<u8>, bytes: &[u8]) -> Result<(), NoMemory>
    ensures { OnOk result (text.new.items ≡ text.old.items ++ escaped bytes.now) }
{
    for byte in bytes {
        add_byte(text, *byte)?;
    }
    Ok(())
}
