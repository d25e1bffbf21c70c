//! The rules of the symbol table and of its symbols.

ghost use Rattle.std.specs.Prelude.{◌≡◌, ◌-◌, ◌<◌, ◌^◌, ◌&&◌, ◌==◌, nat_lt};
ghost use Rattle.elf_read.specs.Standard.{sht_strtab};
ghost use Rattle.elf_read.specs.Rule.{each};
ghost use Rattle.elf_read.specs.Rules.{is_right_symtab as is_right_symtab_at, symtab_rule, has_place as has_place_of, lies_inside as lies_inside_of, is_right_common as is_right_common_of, is_right_symbol as is_right_symbol_of, symbol_rule};
ghost use Rattle.elf_read.specs.Tables.{header_count as header_count_of, header as header_at, symtab as symtab_of, symbol_count as symbol_count_of, symbol_names as symbol_names_of};

use crate::entries::SymbolEntry;
use crate::error::ElfErr;
use crate::section_rules::is_alignment;
use crate::standard::{
    SHN_ABS, SHN_COMMON, SHN_UNDEF, SHT_STRTAB, STB_WEAK, STT_COMMON, SYM_BYTES,
};
use crate::tables::{
    has_name, header, header_count, header_offset, holds_entries, is_loaded, is_symtab, symbol,
    symbol_count, symbol_names, symbol_offset,
};
use wind_base::limits::{SECTION_BYTES, SYMBOL_ENTRIES};

// Whether section number `i` exists and is a string table.
fn is_string_table(bytes: &[u8], i: usize) -> bool
    requires { i < 2 ^ 32 }
    ensures { result ≡ (nat_lt i (header_count_of bytes.now) && (header_at bytes.now i).kind == sht_strtab) }
{
    i < header_count(bytes) && header(bytes, i).kind == SHT_STRTAB
}

// Whether section number `i` is the first symbol table, and valid.
#[tactic(auto, unfolding(crate::specs::Rules::is_right_symtab))]
fn is_right_symtab(bytes: &[u8], symtab: usize, i: usize) -> bool
    requires table { symtab ≡ symtab_of bytes.now }
    requires low { i < 2 ^ 16 }
    ensures { result ≡ is_right_symtab_at bytes.now i }
{
    i == symtab
        && holds_entries(header(bytes, i), SYM_BYTES)
        && is_string_table(bytes, header(bytes, i).link as usize)
}

fn check_symtab(bytes: &[u8], symtab: usize, i: usize) -> Result<(), ElfErr>
    requires table { symtab ≡ symtab_of bytes.now }
    requires low { i < 2 ^ 16 }
    ensures { result ≡ symtab_rule bytes.now i }
{
    if !is_symtab(bytes, i) {
        return Ok(());
    }
    if !is_right_symtab(bytes, symtab, i) {
        return Err(ElfErr::BadSection(header_offset(bytes, i) as u64));
    }
    if header(bytes, i).size as usize / SYM_BYTES > SYMBOL_ENTRIES as usize {
        return Err(ElfErr::TooMany(header_offset(bytes, i) as u64));
    }
    Ok(())
}

/// There is at most one symbol table; it is valid and not too large.
#[tactic(auto, using(crate::proofs::Each::each_more, crate::proofs::Each::each_none))]
pub(crate) fn check_symtabs(bytes: &[u8], symtab: usize) -> Result<(), ElfErr>
    requires { symtab ≡ symtab_of bytes.now }
    ensures { result ≡ each 0 (header_count_of bytes.now) (symtab_rule bytes.now) }
{
    let count = header_count(bytes);
    for i in 0..count {
        check_symtab(bytes, symtab, i)?;
    }
    Ok(())
}

// Whether a symbol's section exists, or the symbol is absolute or common.
#[tactic(auto, unfolding(crate::specs::Rules::has_place))]
fn has_place(bytes: &[u8], e: SymbolEntry) -> bool
    ensures { result ≡ has_place_of bytes.now e }
{
    (e.section as usize) < header_count(bytes) || e.section == SHN_ABS || e.section == SHN_COMMON
}

// Whether a symbol, if its section is loaded, is in that section or at its end.
#[tactic(auto, unfolding(crate::specs::Rules::lies_inside))]
fn lies_inside(bytes: &[u8], e: SymbolEntry) -> bool
    ensures { result ≡ lies_inside_of bytes.now e }
{
    e.section == SHN_UNDEF
        || !is_loaded(bytes, e.section as usize)
        || e.value <= header(bytes, e.section as usize).size
}

// Whether a symbol, if it is common, has a valid alignment and size.
#[tactic(auto, unfolding(crate::specs::Rules::is_right_common))]
fn is_right_common(e: SymbolEntry) -> bool
    ensures { result ≡ is_right_common_of e }
{
    e.section != SHN_COMMON || (is_alignment(e.value) && e.size <= SECTION_BYTES)
}

#[tactic(auto, unfolding(crate::specs::Rules::is_right_symbol))]
fn is_right_symbol(bytes: &[u8], names: &[u8], e: SymbolEntry) -> bool
    requires { names.now ≡ symbol_names_of bytes.now }
    ensures { result ≡ is_right_symbol_of bytes.now e }
{
    has_name(names, e.name as usize)
        && e.info / 16 <= STB_WEAK
        && e.info % 16 <= STT_COMMON
        && has_place(bytes, e)
        && lies_inside(bytes, e)
        && is_right_common(e)
}

fn check_symbol(bytes: &[u8], symtab: usize, names: &[u8], k: usize) -> Result<(), ElfErr>
    requires table { symtab ≡ symtab_of bytes.now }
    requires low { symtab < 2 ^ 16 }
    requires strings { names.now ≡ symbol_names_of bytes.now }
    requires few { k < 2 ^ 28 }
    ensures { result ≡ symbol_rule bytes.now k }
{
    if !is_right_symbol(bytes, names, symbol(bytes, symtab, k)) {
        return Err(ElfErr::BadSymbol(symbol_offset(bytes, symtab, k) as u64));
    }
    Ok(())
}

/// Each symbol but number 0 is valid.
#[tactic(auto, using(crate::proofs::Each::each_more, crate::proofs::Each::each_none, crate::proofs::Each::each_empty))]
pub(crate) fn check_symbols(bytes: &[u8], symtab: usize) -> Result<(), ElfErr>
    requires table { symtab ≡ symtab_of bytes.now }
    requires low { symtab < 2 ^ 16 }
    ensures { result ≡ each 1 (symbol_count_of bytes.now - 1) (symbol_rule bytes.now) }
{
    let count = symbol_count(bytes, symtab);
    let names = symbol_names(bytes, symtab);
    for k in 1..count {
        check_symbol(bytes, symtab, names, k)?;
    }
    Ok(())
}
