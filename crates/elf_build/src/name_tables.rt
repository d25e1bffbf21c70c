//! The tables of names.

ghost use Rattle.std.specs.Prelude.{◌≡◌, ◌+◌, ◌*◌, ◌++◌, ◌^◌, ◌<◌, ◌≤◌, length, IfOk};
ghost use Rattle.std.specs.List.{flat_map};
ghost use Rattle.wind_base.specs.Limits.{longest_name, most_section_headers};
ghost use Rattle.elf_build.specs.File.{fixed_names, prefix_of, sect_name, sym_name, names_of, strings_of, table_name as table_name_of};

use crate::put::{put_bytes, put_name};
use elf_read::{Sect, Sym};
use std::alloc::AllocError;
use wind_base::limits::NAME_BYTES;

/// The place of `.symtab` in the table of section names.
pub(crate) const SYMTAB_NAME: u32 = 1;

/// The place of `.strtab` there.
pub(crate) const STRTAB_NAME: u32 = 9;

/// The place of `.shstrtab` there.
pub(crate) const SHSTRTAB_NAME: u32 = 17;

/// The place of the first section's entry there.
pub(crate) const FIRST_NAME: u32 = 27;

/// The bytes before a section's name in the table of section names: `.rela`, with which it is the
/// name of the section's table of relocations, or nothing if that would have over 255 bytes.
#[tactic(auto, unfolding(crate::specs::File::prefix_of))]
pub(crate) fn prefix(s: &Sect) -> &'static [u8]
    ensures value { result.now ≡ prefix_of s.now }
    ensures short { length result.now + length s.now.name ≤ longest_name }
{
    let rela = b".rela";
    if rela.len() + s.name.bytes().len() <= NAME_BYTES {
        rela
    } else {
        b""
    }
}

/// The length of a section's entry in the table of section names.
#[tactic(auto, using(crate::proofs::Sizes::length_sect_name))]
pub(crate) fn sect_name_len(s: &Sect) -> usize
    ensures value { result ≡ length (sect_name s.now) }
    ensures short { result ≤ longest_name + 1 }
{
    prefix(s).len() + s.name.bytes().len() + 1
}

/// The length of all sections' entries.
#[tactic(auto, using(crate::proofs::Sizes::sect_names_left))]
pub(crate) fn sect_names_len(sections: &[Sect]) -> usize
    requires { length sections.now < 2 ^ 32 }
    ensures value { result ≡ length (flat_map sect_name sections.now) }
    ensures low { result ≤ (longest_name + 1) * length sections.now }
{
    let mut sum = 0;
    for s in sections {
        sum += sect_name_len(s);
    }
    sum
}

/// The length of the symbols' names, each with its terminating zero.
#[tactic(auto, using(crate::proofs::Sizes::sym_names_left))]
pub(crate) fn sym_names_len(symbols: &[Sym]) -> usize
    requires { length symbols.now < 2 ^ 32 }
    ensures value { result ≡ length (flat_map sym_name symbols.now) }
    ensures low { result ≤ (longest_name + 1) * length symbols.now }
{
    let mut sum = 0;
    for s in symbols {
        sum += s.name.bytes().len() + 1;
    }
    sum
}

/// The place of the name of a section's table of relocations in the table of section names.
#[tactic(auto, using(crate::proofs::Sizes::length_names))]
pub(crate) fn table_name(sections: &[Sect], section: u32) -> u32
    requires few { length sections.now ≤ most_section_headers }
    requires within { section < length sections.now }
    ensures { result ≡ table_name_of sections.now section }
{
    FIRST_NAME + sect_names_len(&sections[..section as usize]) as u32
}

// Appends the names that are in each file.
#[tactic(auto, unfolding(crate::specs::File::fixed_names))]
fn put_fixed_names(out: &mut Vec<u8>) -> Result<(), AllocError>
    ensures { IfOk result (λ u. out.new.items ≡ out.old.items ++ fixed_names) }
{
    put_bytes(out, b"\0.symtab\0.strtab\0.shstrtab\0")
}

// Appends a section's entry.
#[tactic(auto, using(crate::proofs::Joins::two))]
fn put_sect_name(out: &mut Vec<u8>, s: &Sect) -> Result<(), AllocError>
    ensures { IfOk result (λ u. out.new.items ≡ out.old.items ++ sect_name s.now) }
{
    put_bytes(out, prefix(s))?;
    put_name(out, s.name.bytes())
}

#[tactic(auto, using(crate::proofs::Joins::flat_step))]
fn put_sect_names(out: &mut Vec<u8>, sections: &[Sect]) -> Result<(), AllocError>
    ensures { IfOk result (λ u. out.new.items ≡ out.old.items ++ flat_map sect_name sections.now) }
{
    for s in sections {
        put_sect_name(out, s)?;
    }
    Ok(())
}

/// Appends the table of section names.
#[tactic(auto, unfolding(crate::specs::File::names_of), using(crate::proofs::Joins::two))]
pub(crate) fn put_names(out: &mut Vec<u8>, sections: &[Sect]) -> Result<(), AllocError>
    ensures { IfOk result (λ u. out.new.items ≡ out.old.items ++ names_of sections.now) }
{
    put_fixed_names(out)?;
    put_sect_names(out, sections)
}

#[tactic(auto, using(crate::proofs::Joins::flat_step))]
fn put_sym_names(out: &mut Vec<u8>, symbols: &[Sym]) -> Result<(), AllocError>
    ensures { IfOk result (λ u. out.new.items ≡ out.old.items ++ flat_map sym_name symbols.now) }
{
    for s in symbols {
        put_name(out, s.name.bytes())?;
    }
    Ok(())
}

/// Appends the table of symbol names.
#[tactic(auto, unfolding(crate::specs::File::strings_of), using(crate::proofs::Joins::two))]
pub(crate) fn put_strings(out: &mut Vec<u8>, symbols: &[Sym]) -> Result<(), AllocError>
    ensures { IfOk result (λ u. out.new.items ≡ out.old.items ++ strings_of symbols.now) }
{
    put_bytes(out, &[0])?;
    put_sym_names(out, symbols)
}
