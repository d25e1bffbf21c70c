//! The object file of a module.

ghost use Rattle.std.specs.Prelude.{◌≡◌, ◌+◌, ◌++◌, ◌^◌, ◌<◌, [], length, IfOk};
ghost use Rattle.elf_read.specs.Contents.{ModuleOf};
ghost use Rattle.elf_build.specs.Buildable.{Buildable};
ghost use Rattle.elf_build.specs.File.{headers_of, file_of};
ghost use Rattle.elf_build.specs.Writable.{Writable, layout_of, parts_of};

use crate::groups::table_count;
use crate::headers::{
    locals_end, null_header, put_elf_header, put_sect_headers, put_table_headers, strings_header,
    symtab_header,
};
use crate::name_tables::{SHSTRTAB_NAME, STRTAB_NAME, put_names, put_strings};
use crate::put::{put_bytes, put_header};
use crate::tables::{put_contents, put_relocs, put_symbols};
use elf_read::Module;
use elf_read::standard::EHDR_BYTES;
use std::alloc::{AllocError, Global};
use wind_base::NoMemory;

// The offsets at which the parts of a file and its section headers begin.
#[derive(Clone, Copy, Drop)]
struct Layout {
    symbols: u32,
    relocs: u32,
    strings: u32,
    names: u32,
    headers: u32,
}

// The offset of the end of the file so far, with its ELF header.
fn end_of(parts: &[u8]) -> u32
    requires { 52 + length parts.now < 2 ^ 32 }
    ensures { result ≡ 52 + length parts.now }
{
    (EHDR_BYTES + parts.len()) as u32
}

// The parts between the ELF header and the section headers.
#[tactic(auto, unfolding(crate::specs::Writable::parts_of, crate::specs::Writable::layout_of, crate::specs::File::symbols_at, crate::specs::File::relocs_at, crate::specs::File::strings_at, crate::specs::File::names_at, crate::specs::File::headers_at))]
fn put_parts(parts: &mut Vec<u8>, m: &Module) -> Result<Layout, AllocError>
    requires empty { parts.old.items ≡ [] }
    requires good { Writable m.now }
    ensures { IfOk result (λ l. (parts.new.items ≡ parts_of m.now) × (l ≡ layout_of m.now)) }
{
    put_contents(parts, m.sections.as_slice())?;
    let symbols = end_of(parts);
    put_symbols(parts, m.symbols.as_slice())?;
    let relocs = end_of(parts);
    put_relocs(parts, m.relocs.as_slice())?;
    let strings = end_of(parts);
    put_strings(parts, m.symbols.as_slice())?;
    let names = end_of(parts);
    put_names(parts, m.sections.as_slice())?;
    Ok(Layout {
        symbols,
        relocs,
        strings,
        names,
        headers: end_of(parts),
    })
}

// The section headers.
#[tactic(auto, unfolding(crate::specs::Writable::layout_of, crate::specs::File::headers_of, crate::specs::File::relocs_at, crate::specs::File::strings_at, crate::specs::File::names_at, crate::specs::File::headers_at), using(crate::proofs::Joins::seven_headers))]
fn put_headers(out: &mut Vec<u8>, m: &Module, at: Layout) -> Result<(), AllocError>
    requires good { Writable m.now }
    requires places { at ≡ layout_of m.now }
    ensures { IfOk result (λ u. out.new.items ≡ out.old.items ++ headers_of m.now) }
{
    let sections = m.sections.as_slice();
    let count = sections.len() as u32;
    let locals = locals_end(m.symbols.as_slice());
    put_header(out, null_header())?;
    put_sect_headers(out, sections)?;
    put_header(
        out,
        symtab_header(at.symbols, at.relocs - at.symbols, count + 2, locals),
    )?;
    put_header(
        out,
        strings_header(STRTAB_NAME, at.strings, at.names - at.strings),
    )?;
    put_header(
        out,
        strings_header(SHSTRTAB_NAME, at.names, at.headers - at.names),
    )?;
    put_table_headers(out, sections, count + 1, at.relocs, m.relocs.as_slice())
}

// The whole file.
#[tactic(auto, unfolding(crate::specs::Writable::layout_of), using(crate::proofs::Parts::joined))]
fn put_file(alloc: Global, m: &Module) -> Result<Vec<u8>, AllocError>
    requires { Writable m.now }
    ensures { IfOk result (λ v. v.items ≡ file_of m.now) }
{
    let count = m.sections.as_slice().len() as u16;
    let tables = table_count(m.relocs.as_slice()) as u16;
    let mut parts = Vec::new(alloc);
    let at = put_parts(&mut parts, m)?;
    let mut out = Vec::new(alloc);
    put_elf_header(&mut out, at.headers, count + tables + 4, count + 3)?;
    put_bytes(&mut out, &parts)?;
    put_headers(&mut out, m, at)?;
    Ok(out)
}

/// The object file of this module: ELF header, contents, symbols, relocations, names, and then the
/// section headers. `is_buildable` tests whether a module has a file.
#[tactic(auto, using(crate::proofs::Parts::writable))]
pub fn build(alloc: Global, m: &Module) -> Result<Vec<u8>, NoMemory>
    requires { Buildable m.now }
    ensures file { IfOk result (λ v. v.items ≡ file_of m.now) }
    ensures read_back { IfOk result (λ v. ModuleOf v.items m.now) }
{
    let file = put_file(alloc, m)?;
    Ok(file)
}
