//! Numbers, pieces and entries at offsets of a file. Numbers after the end of the file are 0, and
//! pieces are empty.

ghost use Rattle.std.specs.Prelude.{◌≡◌, ◌+◌, ◌*◌, ◌<◌, ◌^◌, slice_index, drop};
ghost use Rattle.elf_read.specs.Places.{half as half_at, word as word_at, part as part_at, header_at, symbol_at, rela_at, text_of};

use crate::entries::{RelaEntry, SectionHeader, SymbolEntry};
use byteorder::{BigEndian, ByteOrder};

/// The byte at an offset.
pub(crate) fn byte(bytes: &[u8], at: usize) -> u8
    ensures { result ≡ slice_index bytes.now at }
{
    if at < bytes.len() { bytes[at] } else { 0 }
}

/// The number of two bytes at an offset, high byte first.
#[tactic(auto, unfolding(crate::specs::Places::half))]
pub(crate) fn half(bytes: &[u8], at: usize) -> u16
    requires { at < 2 ^ 40 }
    ensures { result ≡ half_at bytes.now at }
{
    if at + 2 <= bytes.len() {
        BigEndian::read_u16(&bytes[at..])
    } else {
        0
    }
}

/// The number of four bytes at an offset, high byte first.
#[tactic(auto, unfolding(crate::specs::Places::word))]
pub(crate) fn word(bytes: &[u8], at: usize) -> u32
    requires { at < 2 ^ 40 }
    ensures { result ≡ word_at bytes.now at }
{
    if at + 4 <= bytes.len() {
        BigEndian::read_u32(&bytes[at..])
    } else {
        0
    }
}

/// The bytes from an offset on.
pub(crate) fn rest_at(bytes: &[u8], at: usize) -> &[u8]
    ensures { result.now ≡ drop at bytes.now }
{
    if at < bytes.len() {
        &bytes[at..]
    } else {
        &bytes[bytes.len()..]
    }
}

/// The given number of bytes at an offset, or fewer if the file ends before.
pub(crate) fn part(bytes: &[u8], at: usize, size: usize) -> &[u8]
    ensures { result.now ≡ part_at bytes.now at size }
{
    let rest = rest_at(bytes, at);
    if size < rest.len() {
        &rest[..size]
    } else {
        rest
    }
}

/// The bytes before the first zero.
pub(crate) fn text(bytes: &[u8]) -> &[u8]
    ensures { result.now ≡ text_of bytes.now }
{
    for (i, b) in bytes.iter().enumerate() {
        if *b == 0 {
            return &bytes[..i];
        }
    }
    bytes
}

/// The section header at an offset.
#[tactic(auto, unfolding(crate::specs::Places::header_at))]
pub(crate) fn header_entry(bytes: &[u8], at: usize) -> SectionHeader
    requires { at < 2 ^ 39 }
    ensures { result ≡ header_at bytes.now at }
{
    SectionHeader {
        name: word(bytes, at),
        kind: word(bytes, at + 4),
        flags: word(bytes, at + 8),
        offset: word(bytes, at + 16),
        size: word(bytes, at + 20),
        link: word(bytes, at + 24),
        info: word(bytes, at + 28),
        align: word(bytes, at + 32),
        entry_size: word(bytes, at + 36),
    }
}

/// The symbol table entry at an offset.
#[tactic(auto, unfolding(crate::specs::Places::symbol_at))]
pub(crate) fn symbol_entry(bytes: &[u8], at: usize) -> SymbolEntry
    requires { at < 2 ^ 39 }
    ensures { result ≡ symbol_at bytes.now at }
{
    SymbolEntry {
        name: word(bytes, at),
        value: word(bytes, at + 4),
        size: word(bytes, at + 8),
        info: byte(bytes, at + 12),
        section: half(bytes, at + 14),
    }
}

/// The relocation entry at an offset.
#[tactic(auto, unfolding(crate::specs::Places::rela_at))]
pub(crate) fn rela_entry(bytes: &[u8], at: usize) -> RelaEntry
    requires { at < 2 ^ 39 }
    ensures { result ≡ rela_at bytes.now at }
{
    RelaEntry {
        offset: word(bytes, at),
        info: word(bytes, at + 4),
        addend: word(bytes, at + 8),
    }
}
