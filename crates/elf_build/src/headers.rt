//! Appends the ELF header and the section headers.

ghost use Rattle.std.specs.Prelude.{◌≡◌, ◌+◌, ◌*◌, ◌++◌, ◌^◌, ◌<◌, ◌≤◌, length, IfOk};
ghost use Rattle.std.specs.List.{All};
ghost use Rattle.wind_base.specs.Limits.{most_section_headers, most_symbol_entries};
ghost use Rattle.elf_read.specs.Standard.{ehdr_bytes, rela_bytes};
ghost use Rattle.elf_read.specs.Modules.{size_of as size_of_body};
ghost use Rattle.elf_build.specs.Entries.{kind_of as kind_of_body, sect_header as sect_header_of};
ghost use Rattle.elf_build.specs.File.{contents_of, sect_headers, first_name, tables_of, table_header as table_header_of, table_headers, null_header as null_header_of, strings_header as strings_header_of, symtab_header as symtab_header_of, locals_end as locals_end_of, elf_header};
ghost use Rattle.elf_build.specs.Writable.{IsShort, HasSection};

use crate::groups::{first_len, relocs_after};
use crate::name_tables::{FIRST_NAME, SYMTAB_NAME, prefix, sect_name_len, table_name};
use crate::put::{put_bytes, put_half, put_header, put_word};
use crate::tables::content;
use elf_read::standard::{
    EHDR_BYTES, RELA_BYTES, SHF_INFO_LINK, SHT_NOBITS, SHT_NULL, SHT_PROGBITS, SHT_RELA,
    SHT_STRTAB, SHT_SYMTAB, SYM_BYTES,
};
use elf_read::{Body, Rel, Sect, SectionHeader, Sym};
use std::alloc::AllocError;

fn kind_of(body: &Body) -> u32
    ensures { result ≡ kind_of_body body.now }
{
    match body {
        Body::Bytes(_) => SHT_PROGBITS,
        Body::Size(_) => SHT_NOBITS,
    }
}

fn size_of(body: &Body) -> u32
    requires { size_of_body body.now < 2 ^ 32 }
    ensures { result ≡ size_of_body body.now }
{
    match body {
        Body::Bytes(bytes) => bytes.as_slice().len() as u32,
        Body::Size(size) => *size,
    }
}

// The header of a section, whose name and content begin at these places.
#[tactic(auto, unfolding(crate::specs::Entries::sect_header))]
fn sect_header(name: u32, at: u32, s: &Sect) -> SectionHeader
    requires { size_of_body s.now.body < 2 ^ 32 }
    ensures { result ≡ sect_header_of name at s.now }
{
    SectionHeader {
        name,
        kind: kind_of(&s.body),
        flags: s.flags,
        offset: at,
        size: size_of(&s.body),
        link: 0,
        info: 0,
        align: s.align,
        entry_size: 0,
    }
}

/// Appends the headers of the module's sections.
#[tactic(auto, unfolding(crate::specs::File::contents_of), using(crate::proofs::Joins::two, crate::proofs::Sizes::contents_left))]
pub(crate) fn put_sect_headers(out: &mut Vec<u8>, sections: &[Sect]) -> Result<(), AllocError>
    requires few { length sections.now ≤ most_section_headers }
    requires fit { All IsShort sections.now }
    requires short { ehdr_bytes + length (contents_of sections.now) < 2 ^ 32 }
    ensures { IfOk result (λ u. out.new.items ≡ out.old.items ++ sect_headers first_name ehdr_bytes sections.now) }
{
    let mut name = FIRST_NAME;
    let mut at = EHDR_BYTES as u32;
    for s in sections {
        put_header(out, sect_header(name + prefix(s).len() as u32, at, s))?;
        name += sect_name_len(s) as u32;
        at += content(&s.body).len() as u32;
    }
    Ok(())
}

/// The number of the last local symbol, plus 1.
pub(crate) fn locals_end(symbols: &[Sym]) -> u32
    requires { length symbols.now < most_symbol_entries }
    ensures { result ≡ locals_end_of symbols.now }
{
    let mut last = 1;
    for (i, s) in symbols.iter().enumerate() {
        if s.binding == 0 {
            last = i as u32 + 2;
        }
    }
    last
}

// The header of a table of relocations, from its name's place, its offset, its section, and the
// number of its relocations.
#[tactic(auto, unfolding(crate::specs::File::table_header))]
fn table_header(name: u32, symtab: u32, at: u32, section: u32, count: u32) -> SectionHeader
    requires few { count < 2 ^ 28 }
    requires low { section < most_section_headers }
    ensures { result ≡ table_header_of name symtab at section count }
{
    SectionHeader {
        name,
        kind: SHT_RELA,
        flags: SHF_INFO_LINK,
        offset: at,
        size: RELA_BYTES as u32 * count,
        link: symtab,
        info: section + 1,
        align: 4,
        entry_size: RELA_BYTES as u32,
    }
}

/// Appends the headers of the sections' tables of relocations; the first table begins at an offset.
#[tactic(auto, using(crate::proofs::TableLemmas::table_step))]
pub(crate) fn put_table_headers(
    out: &mut Vec<u8>,
    sections: &[Sect],
    symtab: u32,
    at: u32,
    relocs: &[Rel],
) -> Result<(), AllocError>
    requires few_sections { length sections.now ≤ most_section_headers }
    requires fit { All (HasSection (length sections.now)) relocs.now }
    requires few { length relocs.now < 2 ^ 28 }
    requires low { at + rela_bytes * length relocs.now < 2 ^ 32 }
    ensures { IfOk result (λ u. out.new.items
        ≡ out.old.items ++ table_headers sections.now symtab at (tables_of relocs.now)) }
{
    let mut place = at;
    let mut rest = relocs;
    while !rest.is_empty() {
        let section = rest[0].section;
        let n = first_len(rest);
        let name = table_name(sections, section);
        put_header(out, table_header(name, symtab, place, section, n as u32))?;
        place += RELA_BYTES as u32 * n as u32;
        rest = relocs_after(rest, n);
    }
    Ok(())
}

/// Header number 0.
#[tactic(auto, unfolding(crate::specs::File::null_header))]
pub(crate) fn null_header() -> SectionHeader
    ensures { result ≡ null_header_of }
{
    SectionHeader {
        name: 0,
        kind: SHT_NULL,
        flags: 0,
        offset: 0,
        size: 0,
        link: 0,
        info: 0,
        align: 0,
        entry_size: 0,
    }
}

/// The header of a table of names.
#[tactic(auto, unfolding(crate::specs::File::strings_header))]
pub(crate) fn strings_header(name: u32, at: u32, size: u32) -> SectionHeader
    ensures { result ≡ strings_header_of name at size }
{
    SectionHeader {
        name,
        kind: SHT_STRTAB,
        flags: 0,
        offset: at,
        size,
        link: 0,
        info: 0,
        align: 1,
        entry_size: 0,
    }
}

/// The header of the symbol table.
#[tactic(auto, unfolding(crate::specs::File::symtab_header))]
pub(crate) fn symtab_header(at: u32, size: u32, link: u32, locals: u32) -> SectionHeader
    ensures { result ≡ symtab_header_of at size link locals }
{
    SectionHeader {
        name: SYMTAB_NAME,
        kind: SHT_SYMTAB,
        flags: 0,
        offset: at,
        size,
        link,
        info: locals,
        align: 4,
        entry_size: SYM_BYTES as u32,
    }
}

/// Appends the ELF header, from the offset and number of the section headers, and the number of the
/// one for the section names.
#[tactic(auto, unfolding(crate::specs::File::elf_header), using(crate::proofs::Joins::five))]
pub(crate) fn put_elf_header(
    out: &mut Vec<u8>,
    headers: u32,
    count: u16,
    names: u16,
) -> Result<(), AllocError>
    ensures { IfOk result (λ u. out.new.items ≡ out.old.items ++ elf_header headers count names) }
{
    put_bytes(
        out,
        &[
            0x7f, 0x45, 0x4c, 0x46, 1, 2, 1, 0, 0, 0, 0, 0, 0, 0, 0, 0, 0, 1, 0, 20, 0, 0, 0, 1, 0,
            0, 0, 0, 0, 0, 0, 0,
        ],
    )?;
    put_word(out, headers)?;
    put_bytes(out, &[0, 0, 0, 0, 0, 52, 0, 0, 0, 0, 0, 40])?;
    put_half(out, count)?;
    put_half(out, names)
}
