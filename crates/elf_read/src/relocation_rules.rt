//! The rules of relocations and their tables.

ghost use Rattle.std.specs.Prelude.{◌≡◌, ◌+◌, ◌<◌, ◌^◌};
ghost use Rattle.elf_read.specs.Numbered.{total};
ghost use Rattle.elf_read.specs.Rule.{each};
ghost use Rattle.elf_read.specs.Rules.{is_right_table as is_right_table_at, table_rule, is_right_relocation as is_right_relocation_of, relocation_rule, relocations_rule};
ghost use Rattle.elf_read.specs.Tables.{header_count as header_count_of, symtab as symtab_of, rela_count as rela_count_at};

use crate::entries::{RelaEntry, SectionHeader};
use crate::error::ElfErr;
use crate::standard::{RELA_BYTES, SHT_NOBITS, SHT_REL, SHT_RELA};
use crate::tables::{
    header, header_count, header_offset, holds_entries, is_elsewhere, is_loaded, rela_count,
    rela_offset, relocation, symbol, symbol_count, width,
};
use wind_base::limits::RELOCATIONS;

// Whether section number `i` is a valid table of relocations with addends.
#[tactic(auto, unfolding(crate::specs::Rules::is_right_table))]
fn is_right_table(bytes: &[u8], symtab: usize, i: usize) -> bool
    requires table { symtab ≡ symtab_of bytes.now }
    requires low { i < 2 ^ 16 }
    ensures { result ≡ is_right_table_at bytes.now i }
{
    let h = header(bytes, i);
    h.kind == SHT_RELA
        && holds_entries(h, RELA_BYTES)
        && symtab < header_count(bytes)
        && h.link as usize == symtab
}

// `sofar` is the number of relocations in the sections up to and including this one.
fn check_table(bytes: &[u8], symtab: usize, i: usize, sofar: usize) -> Result<(), ElfErr>
    requires table { symtab ≡ symtab_of bytes.now }
    requires low { i < 2 ^ 16 }
    requires all { sofar ≡ total (i + 1) (rela_count_at bytes.now) }
    ensures { result ≡ table_rule bytes.now i }
{
    let h = header(bytes, i);
    if h.kind != SHT_RELA && h.kind != SHT_REL {
        return Ok(());
    }
    if h.info as usize >= header_count(bytes) {
        return Err(ElfErr::BadSection(header_offset(bytes, i) as u64));
    }
    if !is_loaded(bytes, h.info as usize) {
        return Ok(());
    }
    if !is_right_table(bytes, symtab, i) {
        return Err(ElfErr::BadSection(header_offset(bytes, i) as u64));
    }
    if sofar > RELOCATIONS as usize {
        return Err(ElfErr::TooMany(header_offset(bytes, i) as u64));
    }
    Ok(())
}

/// Each table of relocations for a loaded section is valid, and together they aren't too many.
#[tactic(auto, using(crate::proofs::Each::each_more, crate::proofs::Each::each_none, crate::proofs::Gather::total_more))]
pub(crate) fn check_tables(bytes: &[u8], symtab: usize) -> Result<(), ElfErr>
    requires { symtab ≡ symtab_of bytes.now }
    ensures { result ≡ each 0 (header_count_of bytes.now) (table_rule bytes.now) }
{
    let count = header_count(bytes);
    let mut sofar = 0;
    for i in 0..count {
        sofar += rela_count(bytes, i);
        check_table(bytes, symtab, i, sofar)?;
    }
    Ok(())
}

// Whether a relocation is inside its section's bytes, and its symbol exists and isn't in a section
// that isn't loaded.
#[tactic(auto, unfolding(crate::specs::Rules::is_right_relocation))]
fn is_right_relocation(bytes: &[u8], symtab: usize, target: SectionHeader, r: RelaEntry) -> bool
    requires table { symtab ≡ symtab_of bytes.now }
    requires low { symtab < 2 ^ 16 }
    ensures { result ≡ is_right_relocation_of bytes.now target r }
{
    let number = r.info as usize / 256;
    target.kind != SHT_NOBITS
        && number < symbol_count(bytes, symtab)
        && (number == 0 || !is_elsewhere(bytes, symbol(bytes, symtab, number).section as usize))
        && r.offset as usize + width((r.info % 256) as u8) as usize <= target.size as usize
}

fn check_relocation(bytes: &[u8], symtab: usize, i: usize, k: usize) -> Result<(), ElfErr>
    requires table { symtab ≡ symtab_of bytes.now }
    requires low { symtab < 2 ^ 16 }
    requires section { i < 2 ^ 16 }
    requires fits { k < 2 ^ 29 }
    ensures { result ≡ relocation_rule bytes.now i k }
{
    let target = header(bytes, header(bytes, i).info as usize);
    if !is_right_relocation(bytes, symtab, target, relocation(bytes, i, k)) {
        return Err(ElfErr::BadReloc(rela_offset(bytes, i, k) as u64));
    }
    Ok(())
}

#[tactic(auto, using(crate::proofs::Each::each_more, crate::proofs::Each::each_none))]
fn check_relocations_of(bytes: &[u8], symtab: usize, i: usize) -> Result<(), ElfErr>
    requires table { symtab ≡ symtab_of bytes.now }
    requires low { symtab < 2 ^ 16 }
    requires section { i < 2 ^ 16 }
    ensures { result ≡ relocations_rule bytes.now i }
{
    let count = rela_count(bytes, i);
    for k in 0..count {
        check_relocation(bytes, symtab, i, k)?;
    }
    Ok(())
}

/// Each relocation of a loaded section is valid.
#[tactic(auto, using(crate::proofs::Each::each_more, crate::proofs::Each::each_none))]
pub(crate) fn check_relocations(bytes: &[u8], symtab: usize) -> Result<(), ElfErr>
    requires table { symtab ≡ symtab_of bytes.now }
    requires low { symtab < 2 ^ 16 }
    ensures { result ≡ each 0 (header_count_of bytes.now) (relocations_rule bytes.now) }
{
    let count = header_count(bytes);
    for i in 0..count {
        check_relocations_of(bytes, symtab, i)?;
    }
    Ok(())
}
