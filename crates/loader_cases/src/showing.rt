//! Answers as text. Numbers are in hexadecimal digits.

use case_files::Trouble;
use id_table::Ident;
use module_loader::{LoadErr, Loaded, LoadedModule, Segment};
use std::alloc::{AllocError, Global};
use symbol_table::{SymKind, Symbol};

/// The id, followed by the undefined names.
pub fn loaded(alloc: Global, answer: &Loaded) -> Result<String, Trouble> {
    let mut text = format!(in alloc; "id {:x}", answer.id.get())?;
    for name in answer.undefined.as_slice() {
        text.push(' ')?;
        put_bytes(&mut text, name.bytes())?;
    }
    Ok(text)
}

/// Why a load was refused, and whether everything is as before.
pub fn refused(alloc: Global, reason: LoadErr, same: bool) -> Result<String, Trouble> {
    let before = if same { "" } else { ", and something changed" };
    Ok(format!(in alloc; "{reason}{before}")?)
}

/// The value, the kind, whether other modules see the symbol, and its group.
pub fn symbol(alloc: Global, found: Option<&Symbol>) -> Result<String, Trouble> {
    let Some(symbol) = found else {
        return none(alloc);
    };
    let kind = kind(symbol.kind);
    let sight = if symbol.global { "global" } else { "local" };
    Ok(format!(in alloc; "{:x} {kind} {sight} {:x}", symbol.value, symbol.group)?)
}

fn kind(kind: SymKind) -> &'static str {
    match kind {
        SymKind::TextSym => "text",
        SymKind::DataSym => "data",
        SymKind::BssSym => "bss",
        SymKind::AbsSym => "number",
    }
}

/// The name, and the address and size of each segment.
pub fn module(alloc: Global, found: Option<&LoadedModule>) -> Result<String, Trouble> {
    let Some(module) = found else {
        return none(alloc);
    };
    let mut text = String::new(alloc);
    put_bytes(&mut text, module.name.bytes())?;
    let segments: &[Segment] = &module.segments;
    for segment in segments {
        let piece = format!(in alloc; " {:x}+{:x}", segment.addr, segment.size)?;
        text.push_str(piece.as_str())?;
    }
    Ok(text)
}

/// The number of an id.
pub fn id(alloc: Global, found: Option<Ident>) -> Result<String, Trouble> {
    match found {
        Some(id) => hexadecimal(alloc, id.get()),
        None => none(alloc),
    }
}

/// A number in hexadecimal digits.
pub fn hexadecimal(alloc: Global, n: u32) -> Result<String, Trouble> {
    Ok(format!(in alloc; "{n:x}")?)
}

/// Two digits for each byte, in words of four bytes.
pub fn bytes(alloc: Global, found: Option<Vec<u8>>) -> Result<String, Trouble> {
    let Some(bytes) = found else {
        return none(alloc);
    };
    let mut text = String::new(alloc);
    for (i, byte) in bytes.iter().enumerate() {
        if i > 0 && i % 4 == 0 {
            text.push(' ')?;
        }
        let digits = format!(in alloc; "{byte:02x}")?;
        text.push_str(digits.as_str())?;
    }
    Ok(text)
}

/// The line with this number, counted from 0, in quotes, which are empty if there is no such line.
/// The text is ASCII.
pub fn line(alloc: Global, text: &[u8], number: u32) -> Result<String, Trouble> {
    let mut shown = format!(in alloc; "\"")?;
    let mut place = 0u32;
    for byte in text {
        if *byte == b'\n' {
            place = place.wrapping_add(1);
        } else if place == number {
            shown.push(char::from(*byte))?;
        }
    }
    shown.push('"')?;
    Ok(shown)
}

fn none(alloc: Global) -> Result<String, Trouble> {
    Ok(format!(in alloc; "none")?)
}

// Adds the bytes of a name, which are ASCII.
fn put_bytes(text: &mut String, bytes: &[u8]) -> Result<(), AllocError> {
    for byte in bytes {
        text.push(char::from(*byte))?;
    }
    Ok(())
}
