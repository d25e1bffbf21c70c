//! Bytes as the files spell them.

use case_files::Trouble;
use std::alloc::Global;

// The value of a hexadecimal digit.
fn digit(byte: u8) -> Result<u8, Trouble> {
    match char::from(byte).to_digit(16) {
        Some(value) => Ok(value as u8),
        None => Err(Trouble::Unreadable),
    }
}

// Adds the byte of two digits, and what follows them.
fn push_escaped(all: &mut Vec<u8>, piece: &[u8]) -> Result<(), Trouble> {
    let [high, low, rest @ ..] = piece else {
        return Err(Trouble::Unreadable);
    };
    let byte = digit(*high)?.wrapping_mul(16).wrapping_add(digit(*low)?);
    all.push(byte)?;
    all.extend_from_slice(rest)?;
    Ok(())
}

/// The bytes of a text in which `\` and two digits stand for any byte.
pub fn bytes(alloc: Global, text: &str) -> Result<Vec<u8>, Trouble> {
    let mut all = Vec::new(alloc);
    let mut pieces = text.split('\\');
    if let Some(first) = pieces.next() {
        all.extend_from_slice(first.as_bytes())?;
    }
    for piece in pieces {
        push_escaped(&mut all, piece.as_bytes())?;
    }
    Ok(all)
}

// Adds a byte as the files spell it.
fn push_shown(text: &mut String, byte: u8) -> Result<(), Trouble> {
    if 32 <= byte && byte <= 126 && byte != b'"' && byte != b'\\' {
        text.push(char::from(byte))?;
    } else {
        write!(text, "\\{byte:02x}").or(Err(Trouble::NoMemory))?;
    }
    Ok(())
}

/// Bytes as the files spell them, in quotes.
pub fn shown(alloc: Global, bytes: &[u8]) -> Result<String, Trouble> {
    let mut text = String::new(alloc);
    text.push('"')?;
    for byte in bytes {
        push_shown(&mut text, *byte)?;
    }
    text.push('"')?;
    Ok(text)
}
