//! Pieces of replies, added to a text that grows.

ghost use Rattle.std.specs.Prelude.{◌≡◌, ◌++◌, OnOk};
ghost use Rattle.std.specs.Fmt.{decimal};
ghost use Rattle.hex.specs.Hex.{encode_lower};
ghost use Rattle.wind_base.specs.Texts.{hex_places};
ghost use Rattle.debug_wire.specs.Escapes.{escaped, escaped_byte as escaped_byte_lem, is_escaped as is_escaped_lem};
ghost use Rattle.debug_wire.specs.Numbers.{hex_text};

use wind_base::NoMemory;
use wind_base::text::glyph;

/// Adds bytes as they are.
pub fn add(text: &mut Vec<u8>, bytes: &[u8]) -> Result<(), NoMemory>
    ensures { OnOk result (text.new.items ≡ text.old.items ++ bytes.now) }
{
    if text.extend_from_slice(bytes).is_err() {
        return Err(NoMemory);
    }
    Ok(())
}

/// Adds a number in hexadecimal digits, without leading zeros.
pub fn add_number(text: &mut Vec<u8>, n: u64) -> Result<(), NoMemory>
    ensures { OnOk result (text.new.items ≡ text.old.items ++ hex_text n) }
{
    let digits = match format!(in *text.allocator(); "{n:x}") {
        Ok(digits) => digits,
        Err(_) => return Err(NoMemory),
    };
    add(text, digits.as_bytes())
}

/// Adds a number in decimal digits.
pub fn add_decimal(text: &mut Vec<u8>, n: u64) -> Result<(), NoMemory>
    ensures { OnOk result (text.new.items ≡ text.old.items ++ decimal n) }
{
    let digits = match format!(in *text.allocator(); "{n}") {
        Ok(digits) => digits,
        Err(_) => return Err(NoMemory),
    };
    add(text, digits.as_bytes())
}

/// Adds the lowest `places` hexadecimal digits of a number, with leading zeros: 8 for a register of
/// 32 bits, 16 for one of 64 bits. The highest come first, as in the target's byte order.
pub fn add_places(text: &mut Vec<u8>, places: u32, n: u64) -> Result<(), NoMemory>
    ensures { OnOk result (text.new.items ≡ text.old.items ++ hex_places places n) }
{
    if places == 0 {
        return Ok(());
    }
    add_places(text, places - 1, n / 16)?;
    add(text, &[glyph(false, (n % 16) as u32)])
}

/// Adds bytes, each in two hexadecimal digits.
pub fn add_bytes(text: &mut Vec<u8>, bytes: &[u8]) -> Result<(), NoMemory>
    ensures { OnOk result (text.new.items ≡ text.old.items ++ encode_lower bytes.now) }
{
    let digits = match hex::encode(*text.allocator(), bytes) {
        Ok(digits) => digits,
        Err(_) => return Err(NoMemory),
    };
    add(text, digits.as_bytes())
}

// Whether a reply can't have a byte as it is.
fn is_escaped(byte: u8) -> bool
    ensures { result ≡ is_escaped_lem byte }
{
    byte == b'#' || byte == b'$' || byte == b'}' || byte == b'*'
}

// Adds a byte of binary data.
fn add_escaped_byte(text: &mut Vec<u8>, byte: u8) -> Result<(), NoMemory>
    ensures { OnOk result (text.new.items ≡ text.old.items ++ escaped_byte_lem byte) }
{
    if is_escaped(byte) {
        return add(text, &[b'}', byte ^ 0x20]);
    }
    add(text, &[byte])
}

/// Adds binary data: `#`, `$`, `}` and `*` are escaped.
pub fn add_escaped(text: &mut Vec<u8>, bytes: &[u8]) -> Result<(), NoMemory>
    ensures { OnOk result (text.new.items ≡ text.old.items ++ escaped bytes.now) }
{
    for byte in bytes {
        add_escaped_byte(text, *byte)?;
    }
    Ok(())
}
