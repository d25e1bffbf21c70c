//! Adds pieces of text, and numbers in decimal and hexadecimal digits, to a buffer with room for
//! them.

ghost use Rattle.std.specs.Prelude.{◌≡◌, ◌^◌, ◌<◌, ◌≤◌, false, length};
ghost use Rattle.std.specs.Fmt.{decimal, signed_decimal, digit_glyph, digits};
ghost use Rattle.std.specs.Int.{cast_signed, w32};
ghost use Rattle.wind_base.specs.OutBuf.{Added};
ghost use Rattle.wind_base.specs.Texts.{hex_places, hex_within};

use crate::OutBuf;
use itoa::Buffer;

/// Adds a piece that fits the room.
pub fn add(out: &mut OutBuf, piece: &[u8])
    requires { length piece.now ≤ out.old.room }
    ensures { Added (length piece.now) out.old out.new piece.now }
{
    let _ = out.put(piece);
}

/// The hexadecimal digit of a number below 16.
pub fn glyph(upper: bool, digit: u32) -> u8
    requires { digit < 16 }
    ensures { result ≡ digit_glyph upper digit }
{
    if digit < 10 {
        b'0' + digit as u8
    } else if upper {
        b'A' + (digit - 10) as u8
    } else {
        b'a' + (digit - 10) as u8
    }
}

// Adds a number below 16^places in hexadecimal digits, without leading zeros.
fn add_digits(out: &mut OutBuf, n: u32, places: u32)
    requires some { 0 < places }
    requires wide { n < 16 ^ places }
    requires room { places ≤ out.old.room }
    ensures { Added places out.old out.new (hex_within places n) }
{
    if n < 16 {
        add(out, &[glyph(false, n)]);
    } else {
        add_digits(out, n / 16, places - 1);
        add(out, &[glyph(false, n % 16)]);
    }
}

/// Adds a word in lowercase hexadecimal digits without leading zeros: at most 8 bytes.
pub fn add_hex(out: &mut OutBuf, v: u32)
    requires { 8 ≤ out.old.room }
    ensures { Added 8 out.old out.new (digits 16 false v) }
{
    add_digits(out, v, 8);
}

/// Adds the lowest `places` hexadecimal digits of a number, with leading zeros.
pub fn add_places(out: &mut OutBuf, places: u32, n: u64)
    requires { places ≤ out.old.room }
    ensures { Added places out.old out.new (hex_places places n) }
{
    if places > 0 {
        add_places(out, places - 1, n / 16);
        add(out, &[glyph(false, (n % 16) as u32)]);
    }
}

/// Adds a word in decimal digits, as a signed 32-bit number: at most 11 bytes.
pub fn add_signed(out: &mut OutBuf, v: u32)
    requires { 11 ≤ out.old.room }
    ensures { Added 11 out.old out.new (signed_decimal (cast_signed w32 v)) }
{
    let mut digits = Buffer::new();
    add(out, digits.format(v.cast_signed()).as_bytes());
}

/// Adds a number in decimal digits: at most 10 bytes.
pub fn add_decimal(out: &mut OutBuf, n: u32)
    requires { 10 ≤ out.old.room }
    ensures { Added 10 out.old out.new (decimal n) }
{
    let mut digits = Buffer::new();
    add(out, digits.format(n).as_bytes());
}
