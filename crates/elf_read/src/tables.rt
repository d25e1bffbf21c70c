//! The tables of a file.

ghost use Rattle.std.specs.Prelude.{◌≡◌, ◌+◌, ◌*◌, ◌%◌, ◌≤◌, ◌<◌, ◌^◌, ◌&&◌, ◌==◌};
ghost use Rattle.elf_read.specs.Standard.{half_types, word_types};
ghost use Rattle.elf_read.specs.Tables.{header_count as header_count_of, header_offset as header_place_of, header as header_at, content as content_at, is_loaded as is_loaded_at, is_elsewhere as is_elsewhere_at, has_name as has_name_at, has_number as has_number_of, section_names as section_names_of, is_symtab as is_symtab_at, symtab as symtab_of, symbol_count as symbol_count_of, symbol_offset as symbol_place_of, symbol as symbol_at, symbol_names as symbol_names_of, is_applied as is_applied_at, rela_count as rela_count_at, rela_offset as rela_place_of, relocation as relocation_at, width as width_of};

use crate::entries::{RelaEntry, SectionHeader, SymbolEntry};
use crate::places::{half, header_entry, part, rela_entry, symbol_entry, word};
use crate::standard::{
    E_SHNUM, E_SHOFF, E_SHSTRNDX, HALF_TYPES, RELA_BYTES, SHDR_BYTES, SHF_ALLOC, SHT_RELA,
    SHT_SYMTAB, SYM_BYTES, WORD_TYPES,
};
use wind_base::limits::NAME_BYTES;

/// The number of section headers.
pub fn header_count(bytes: &[u8]) -> usize
    ensures value { result ≡ header_count_of bytes.now }
    ensures few { result < 2 ^ 16 }
{
    half(bytes, E_SHNUM) as usize
}

/// The offset of section header number `i`.
pub(crate) fn header_offset(bytes: &[u8], i: usize) -> usize
    requires { i < 2 ^ 32 }
    ensures value { result ≡ header_place_of bytes.now i }
    ensures low { result < 2 ^ 32 + 40 * i }
{
    word(bytes, E_SHOFF) as usize + SHDR_BYTES * i
}

/// Section header number `i`.
#[tactic(auto, unfolding(crate::specs::Tables::header))]
pub fn header(bytes: &[u8], i: usize) -> SectionHeader
    requires { i < 2 ^ 32 }
    ensures { result ≡ header_at bytes.now i }
{
    header_entry(bytes, header_offset(bytes, i))
}

/// The content of section number `i` in the file.
#[tactic(auto, unfolding(crate::specs::Tables::content))]
pub fn content(bytes: &[u8], i: usize) -> &[u8]
    requires { i < 2 ^ 32 }
    ensures { result.now ≡ content_at bytes.now i }
{
    let h = header(bytes, i);
    part(bytes, h.offset as usize, h.size as usize)
}

/// Whether section number `i` exists and is loaded.
#[tactic(auto, unfolding(crate::specs::Tables::is_loaded))]
pub fn is_loaded(bytes: &[u8], i: usize) -> bool
    requires { i < 2 ^ 32 }
    ensures { result ≡ is_loaded_at bytes.now i }
{
    i < header_count(bytes) && header(bytes, i).flags & SHF_ALLOC != 0
}

/// Whether section number `i` exists, isn't number 0, and isn't loaded.
#[tactic(auto, unfolding(crate::specs::Tables::is_elsewhere))]
pub(crate) fn is_elsewhere(bytes: &[u8], i: usize) -> bool
    requires { i < 2 ^ 32 }
    ensures { result ≡ is_elsewhere_at bytes.now i }
{
    i != 0 && i < header_count(bytes) && !is_loaded(bytes, i)
}

/// Whether a name begins at index `k` of a string table.
#[tactic(auto, unfolding(crate::specs::Tables::has_name))]
pub(crate) fn has_name(strings: &[u8], k: usize) -> bool
    ensures { result ≡ has_name_at strings.now k }
{
    part(strings, k, NAME_BYTES + 1).iter().any(|b| *b == 0)
}

/// The string table of the sections' names.
pub(crate) fn section_names(bytes: &[u8]) -> &[u8]
    ensures { result.now ≡ section_names_of bytes.now }
{
    content(bytes, half(bytes, E_SHSTRNDX) as usize)
}

/// Whether a section with this header holds whole entries of this size, in bytes.
pub(crate) fn holds_entries(h: SectionHeader, bytes: usize) -> bool
    requires { 0 < bytes }
    ensures { result ≡ (h.entry_size == bytes && h.size % bytes == 0) }
{
    h.entry_size as usize == bytes && h.size as usize % bytes == 0
}

/// Whether header number `i` is that of a symbol table.
pub(crate) fn is_symtab(bytes: &[u8], i: usize) -> bool
    requires { i < 2 ^ 32 }
    ensures { result ≡ is_symtab_at bytes.now i }
{
    header(bytes, i).kind == SHT_SYMTAB
}

/// The number of the first symbol table, or the number of headers if there is none.
#[tactic(auto, unfolding(crate::specs::Tables::symtab), using(crate::proofs::Gather::first_found, crate::proofs::Gather::first_passed, crate::proofs::Gather::first_none))]
pub(crate) fn symtab(bytes: &[u8]) -> usize
    ensures value { result ≡ symtab_of bytes.now }
    ensures within { result ≤ header_count_of bytes.now }
    ensures few { result < 2 ^ 16 }
{
    let count = header_count(bytes);
    for i in 0..count {
        if is_symtab(bytes, i) {
            return i;
        }
    }
    count
}

/// The number of entries in the symbol table, including entry 0.
#[tactic(auto, unfolding(crate::specs::Tables::symbol_count))]
pub(crate) fn symbol_count(bytes: &[u8], symtab: usize) -> usize
    requires table { symtab ≡ symtab_of bytes.now }
    requires low { symtab < 2 ^ 16 }
    ensures value { result ≡ symbol_count_of bytes.now }
    ensures few { result < 2 ^ 28 }
{
    if symtab < header_count(bytes) {
        header(bytes, symtab).size as usize / SYM_BYTES
    } else {
        0
    }
}

/// The offset of entry number `k` of the symbol table.
pub(crate) fn symbol_offset(bytes: &[u8], symtab: usize, k: usize) -> usize
    requires table { symtab ≡ symtab_of bytes.now }
    requires low { symtab < 2 ^ 16 }
    requires fits { k < 2 ^ 28 }
    ensures value { result ≡ symbol_place_of bytes.now k }
    ensures low { result < 2 ^ 32 + 16 * k }
{
    header(bytes, symtab).offset as usize + SYM_BYTES * k
}

/// Entry number `k` of the symbol table.
#[tactic(auto, unfolding(crate::specs::Tables::symbol))]
pub(crate) fn symbol(bytes: &[u8], symtab: usize, k: usize) -> SymbolEntry
    requires table { symtab ≡ symtab_of bytes.now }
    requires low { symtab < 2 ^ 16 }
    requires fits { k < 2 ^ 28 }
    ensures { result ≡ symbol_at bytes.now k }
{
    symbol_entry(bytes, symbol_offset(bytes, symtab, k))
}

/// The string table of the symbols' names.
pub(crate) fn symbol_names(bytes: &[u8], symtab: usize) -> &[u8]
    requires table { symtab ≡ symtab_of bytes.now }
    requires low { symtab < 2 ^ 16 }
    ensures { result.now ≡ symbol_names_of bytes.now }
{
    content(bytes, header(bytes, symtab).link as usize)
}

/// Whether section number `i` has the relocations of a loaded section.
#[tactic(auto, unfolding(crate::specs::Tables::is_applied))]
pub(crate) fn is_applied(bytes: &[u8], i: usize) -> bool
    requires { i < 2 ^ 16 }
    ensures { result ≡ is_applied_at bytes.now i }
{
    let h = header(bytes, i);
    h.kind == SHT_RELA && is_loaded(bytes, h.info as usize)
}

/// The number of relocations in section number `i`, if they are for a loaded section, otherwise 0.
#[tactic(auto, unfolding(crate::specs::Tables::rela_count))]
pub(crate) fn rela_count(bytes: &[u8], i: usize) -> usize
    requires { i < 2 ^ 16 }
    ensures value { result ≡ rela_count_at bytes.now i }
    ensures few { result < 2 ^ 29 }
{
    if is_applied(bytes, i) {
        header(bytes, i).size as usize / RELA_BYTES
    } else {
        0
    }
}

/// The offset of relocation number `k` of section number `i`.
pub(crate) fn rela_offset(bytes: &[u8], i: usize, k: usize) -> usize
    requires section { i < 2 ^ 16 }
    requires fits { k < 2 ^ 29 }
    ensures value { result ≡ rela_place_of bytes.now i k }
    ensures low { result < 2 ^ 32 + 12 * k }
{
    header(bytes, i).offset as usize + RELA_BYTES * k
}

/// Relocation number `k` of section number `i`.
#[tactic(auto, unfolding(crate::specs::Tables::relocation))]
pub(crate) fn relocation(bytes: &[u8], i: usize, k: usize) -> RelaEntry
    requires section { i < 2 ^ 16 }
    requires fits { k < 2 ^ 29 }
    ensures { result ≡ relocation_at bytes.now i k }
{
    rela_entry(bytes, rela_offset(bytes, i, k))
}

// Whether a relocation of this type changes a halfword.
fn is_half_type(kind: u8) -> bool
    ensures { result ≡ has_number_of half_types kind }
{
    HALF_TYPES.iter().any(|t| *t == kind)
}

// Whether a relocation of this type changes a word.
fn is_word_type(kind: u8) -> bool
    ensures { result ≡ has_number_of word_types kind }
{
    WORD_TYPES.iter().any(|t| *t == kind)
}

/// The number of bytes that a relocation of this type changes: 0, 2 or 4.
#[tactic(auto, unfolding(crate::specs::Tables::width))]
pub fn width(kind: u8) -> u32
    ensures value { result ≡ width_of kind }
    ensures low { result ≤ 4 }
{
    if is_half_type(kind) {
        2
    } else if is_word_type(kind) {
        4
    } else {
        0
    }
}
