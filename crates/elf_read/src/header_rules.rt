//! The rules of the file's header.

ghost use Rattle.std.specs.Prelude.{◌≡◌};
ghost use Rattle.elf_read.specs.Rules.{length_rule, ident_from, ident_rule, machine_rule, type_rule, headers_rule};

use crate::error::ElfErr;
use crate::places::{byte, half};
use crate::standard::{
    E_MACHINE, E_SHENTSIZE, E_SHNUM, E_SHOFF, E_SHSTRNDX, E_TYPE, EHDR_BYTES, EM_PPC, ET_REL,
    IDENT, SHDR_BYTES,
};
use crate::tables::{header_count, header_offset};
use wind_base::limits::SECTION_HEADERS;

/// The file has a header.
pub(crate) fn check_length(bytes: &[u8]) -> Result<(), ElfErr>
    ensures { result ≡ length_rule bytes.now }
{
    if bytes.len() < EHDR_BYTES {
        return Err(ElfErr::Short(bytes.len() as u64));
    }
    Ok(())
}

// The file begins with these bytes.
fn check_prefix(bytes: &[u8], prefix: &[u8]) -> Result<(), ElfErr>
    ensures { result ≡ ident_from 0 prefix.now bytes.now }
{
    for (i, b) in prefix.iter().enumerate() {
        if byte(bytes, i) != *b {
            return Err(ElfErr::NotElf(i as u64));
        }
    }
    Ok(())
}

/// It is a 32-bit, big-endian ELF file of the current version.
pub(crate) fn check_ident(bytes: &[u8]) -> Result<(), ElfErr>
    ensures { result ≡ ident_rule bytes.now }
{
    check_prefix(bytes, &IDENT)
}

/// It is for PowerPC.
pub(crate) fn check_machine(bytes: &[u8]) -> Result<(), ElfErr>
    ensures { result ≡ machine_rule bytes.now }
{
    if half(bytes, E_MACHINE) != EM_PPC {
        return Err(ElfErr::NotPpc(E_MACHINE as u64));
    }
    Ok(())
}

/// It is relocatable.
pub(crate) fn check_type(bytes: &[u8]) -> Result<(), ElfErr>
    ensures { result ≡ type_rule bytes.now }
{
    if half(bytes, E_TYPE) != ET_REL {
        return Err(ElfErr::NotRel(E_TYPE as u64));
    }
    Ok(())
}

/// There are section headers, within the limit and in the file, and one of them is that of the
/// section names.
pub(crate) fn check_headers(bytes: &[u8]) -> Result<(), ElfErr>
    ensures { result ≡ headers_rule bytes.now }
{
    let count = header_count(bytes);
    if half(bytes, E_SHENTSIZE) as usize != SHDR_BYTES {
        return Err(ElfErr::BadSection(E_SHENTSIZE as u64));
    }
    if count == 0 {
        return Err(ElfErr::BadSection(E_SHNUM as u64));
    }
    if half(bytes, E_SHSTRNDX) as usize >= count {
        return Err(ElfErr::BadSection(E_SHSTRNDX as u64));
    }
    if count > SECTION_HEADERS as usize {
        return Err(ElfErr::TooMany(E_SHNUM as u64));
    }
    if header_offset(bytes, count) > bytes.len() {
        return Err(ElfErr::Short(E_SHOFF as u64));
    }
    Ok(())
}
