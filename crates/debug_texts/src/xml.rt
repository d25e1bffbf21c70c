//! Texts in XML.

ghost use Rattle.std.specs.Prelude.{◌≡◌, ◌++◌, OnOk};
ghost use Rattle.debug_texts.specs.Xml.{xml, xml_byte};

use debug_wire::add;
use wind_base::NoMemory;

// Adds a byte of a text in XML.
fn add_xml_byte(text: &mut Vec<u8>, byte: u8) -> Result<(), NoMemory>
    ensures { OnOk result (text.new.items ≡ text.old.items ++ xml_byte byte) }
{
    match byte {
        b'&' => add(text, b"&amp;"),
        b'<' => add(text, b"&lt;"),
        b'>' => add(text, b"&gt;"),
        b'"' => add(text, b"&quot;"),
        _ => add(text, &[byte]),
    }
}

/// Adds bytes as a text in XML.
pub(crate) fn add_xml(text: &mut Vec<u8>, bytes: &[u8]) -> Result<(), NoMemory>
    ensures { OnOk result (text.new.items ≡ text.old.items ++ xml bytes.now) }
{
    for byte in bytes {
        add_xml_byte(text, *byte)?;
    }
    Ok(())
}
