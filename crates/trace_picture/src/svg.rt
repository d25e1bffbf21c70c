//! Pieces of SVG.

use board_changes::Awaited;
use trace_text::{add, add_awaited, add_escaped, add_wide};
use wind_base::NoMemory;

/// A rectangle, in hundredths of a pixel.
#[derive(Clone, Copy)]
pub(crate) struct Rect {
    pub(crate) x: u128,
    pub(crate) y: u128,
    pub(crate) width: u128,
    pub(crate) height: u128,
}

/// Adds a number of hundredths of a pixel.
pub(crate) fn add_pixels(text: &mut Vec<u8>, hundredths: u128) -> Result<(), NoMemory> {
    add_wide(text, hundredths / 100)?;
    let rest = hundredths % 100;
    if rest == 0 {
        return Ok(());
    }
    add(text, b".")?;
    add_wide(text, rest / 10)?;
    add_wide(text, rest % 10)
}

/// Adds an attribute in pixels.
pub(crate) fn add_attribute(
    text: &mut Vec<u8>,
    name: &[u8],
    hundredths: u128,
) -> Result<(), NoMemory> {
    add(text, b" ")?;
    add(text, name)?;
    add(text, b"=\"")?;
    add_pixels(text, hundredths)?;
    add(text, b"\"")
}

// Adds a byte of XML text.
fn add_xml_byte(text: &mut Vec<u8>, byte: u8) -> Result<(), NoMemory> {
    match byte {
        b'&' => add(text, b"&amp;"),
        b'<' => add(text, b"&lt;"),
        b'>' => add(text, b"&gt;"),
        b'"' => add(text, b"&quot;"),
        _ => add_escaped(text, &[byte]),
    }
}

/// Adds bytes as text of XML; those that aren't plain as `\xNN`.
pub(crate) fn add_xml(text: &mut Vec<u8>, bytes: &[u8]) -> Result<(), NoMemory> {
    for byte in bytes {
        add_xml_byte(text, *byte)?;
    }
    Ok(())
}

/// Adds the beginning of a rectangle of a class; its title and its end follow.
pub(crate) fn add_rect(text: &mut Vec<u8>, class: &[u8], rect: Rect) -> Result<(), NoMemory> {
    add(text, b"<rect class=\"")?;
    add(text, class)?;
    add(text, b"\"")?;
    add_attribute(text, b"x", rect.x)?;
    add_attribute(text, b"y", rect.y)?;
    add_attribute(text, b"width", rect.width)?;
    add_attribute(text, b"height", rect.height)?;
    add(text, b">")
}

/// Adds the beginning of a text at a place; its words and its end follow.
pub(crate) fn begin_text(text: &mut Vec<u8>, x: u128, y: u128) -> Result<(), NoMemory> {
    add(text, b"<text")?;
    add_attribute(text, b"x", x)?;
    add_attribute(text, b"y", y)?;
    add(text, b">")
}

/// Adds a text at a place.
pub(crate) fn add_text(text: &mut Vec<u8>, x: u128, y: u128, words: &[u8]) -> Result<(), NoMemory> {
    begin_text(text, x, y)?;
    add_xml(text, words)?;
    add(text, b"</text>\n")
}

/// Adds a vertical line of a class.
pub(crate) fn add_line(
    text: &mut Vec<u8>,
    class: &[u8],
    x: u128,
    top: u128,
    bottom: u128,
) -> Result<(), NoMemory> {
    add(text, b"<line class=\"")?;
    add(text, class)?;
    add(text, b"\"")?;
    add_attribute(text, b"x1", x)?;
    add_attribute(text, b"x2", x)?;
    add_attribute(text, b"y1", top)?;
    add_attribute(text, b"y2", bottom)?;
    add(text, b"/>\n")
}

// Adds what is waited for.
fn add_wait(text: &mut Vec<u8>, object: &Awaited) -> Result<(), NoMemory> {
    add(text, b" for ")?;
    add_awaited(text, *object)
}

/// Adds what is waited for, if anything is.
pub(crate) fn add_object(text: &mut Vec<u8>, object: &Option<Awaited>) -> Result<(), NoMemory> {
    match object {
        Some(object) => add_wait(text, object),
        None => Ok(()),
    }
}

/// Adds the end of a title and of its rectangle: from when to when.
pub(crate) fn add_times(text: &mut Vec<u8>, from: u128, to: u128) -> Result<(), NoMemory> {
    add(text, b", ")?;
    add_wide(text, from)?;
    add(text, b" to ")?;
    add_wide(text, to)?;
    add(text, b"</title></rect>\n")
}
