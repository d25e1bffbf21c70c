//! The rules of sections: their content, their names, and whether they can be loaded.

ghost use Rattle.std.specs.Prelude.{◌≡◌, ◌<◌, ◌^◌};
ghost use Rattle.elf_read.specs.Rule.{each};
ghost use Rattle.elf_read.specs.Rules.{has_content as has_content_of, content_rule, strings_rule, name_rule, is_alignment as is_alignment_of, is_loadable as is_loadable_of, load_rule, section_rule};
ghost use Rattle.elf_read.specs.Tables.{header_count as header_count_of};

use crate::entries::SectionHeader;
use crate::error::ElfErr;
use crate::places::half;
use crate::standard::{
    E_SHSTRNDX, SH_OFFSET, SHF_TLS_OR_COMPRESSED, SHT_NOBITS, SHT_NOTE, SHT_NULL, SHT_PROGBITS,
    SHT_STRTAB,
};
use crate::tables::{has_name, header, header_count, header_offset, is_loaded, section_names};
use wind_base::limits::SECTION_BYTES;

// Whether a section with this header has content in the file.
#[tactic(auto, unfolding(crate::specs::Rules::has_content))]
fn has_content(h: SectionHeader) -> bool
    ensures { result ≡ has_content_of h }
{
    h.kind != SHT_NULL && h.kind != SHT_NOBITS
}

fn check_content(bytes: &[u8], i: usize) -> Result<(), ElfErr>
    requires { i < 2 ^ 16 }
    ensures { result ≡ content_rule bytes.now i }
{
    let h = header(bytes, i);
    if has_content(h) && h.offset as usize + h.size as usize > bytes.len() {
        let at = header_offset(bytes, i) + SH_OFFSET;
        return Err(ElfErr::Short(at as u64));
    }
    Ok(())
}

/// The section names are in a string table.
pub(crate) fn check_strings(bytes: &[u8]) -> Result<(), ElfErr>
    ensures { result ≡ strings_rule bytes.now }
{
    let i = half(bytes, E_SHSTRNDX) as usize;
    if header(bytes, i).kind != SHT_STRTAB {
        return Err(ElfErr::BadSection(header_offset(bytes, i) as u64));
    }
    Ok(())
}

fn check_name(bytes: &[u8], i: usize) -> Result<(), ElfErr>
    requires { i < 2 ^ 16 }
    ensures { result ≡ name_rule bytes.now i }
{
    if !has_name(section_names(bytes), header(bytes, i).name as usize) {
        return Err(ElfErr::BadSection(header_offset(bytes, i) as u64));
    }
    Ok(())
}

/// Whether a number is an alignment: a power of two up to 65,536.
#[tactic(auto, unfolding(crate::specs::Rules::is_alignment))]
pub fn is_alignment(n: u32) -> bool
    ensures { result ≡ is_alignment_of n }
{
    [
        1, 2, 4, 8, 16, 32, 64, 128, 256, 512, 1024, 2048, 4096, 8192, 16384, 32768, 65536,
    ]
    .iter()
    .any(|p| *p == n)
}

// Whether a section with this header can be loaded.
#[tactic(auto, unfolding(crate::specs::Rules::is_loadable))]
fn is_loadable(h: SectionHeader) -> bool
    ensures { result ≡ is_loadable_of h }
{
    (h.kind == SHT_PROGBITS || h.kind == SHT_NOTE || h.kind == SHT_NOBITS)
        && h.flags & SHF_TLS_OR_COMPRESSED == 0
        && (h.align == 0 || is_alignment(h.align))
        && h.size <= SECTION_BYTES
}

fn check_load(bytes: &[u8], i: usize) -> Result<(), ElfErr>
    requires { i < 2 ^ 16 }
    ensures { result ≡ load_rule bytes.now i }
{
    if is_loaded(bytes, i) && !is_loadable(header(bytes, i)) {
        return Err(ElfErr::BadSection(header_offset(bytes, i) as u64));
    }
    Ok(())
}

/// A rule that each section obeys.
#[derive(Clone, Copy, Drop)]
pub(crate) enum SectionRule {
    /// Its content is in the file.
    Content,
    /// It has a valid name.
    Name,
    /// It can be loaded, if it is to be loaded.
    Load,
}

fn check_section(bytes: &[u8], rule: SectionRule, i: usize) -> Result<(), ElfErr>
    requires { i < 2 ^ 16 }
    ensures { result ≡ section_rule rule bytes.now i }
{
    match rule {
        SectionRule::Content => check_content(bytes, i),
        SectionRule::Name => check_name(bytes, i),
        SectionRule::Load => check_load(bytes, i),
    }
}

/// Each section obeys a rule.
#[tactic(auto, using(crate::proofs::Each::each_more, crate::proofs::Each::each_none))]
pub(crate) fn check_sections(bytes: &[u8], rule: SectionRule) -> Result<(), ElfErr>
    ensures { result ≡ each 0 (header_count_of bytes.now) (section_rule rule bytes.now) }
{
    let count = header_count(bytes);
    for i in 0..count {
        check_section(bytes, rule, i)?;
    }
    Ok(())
}
