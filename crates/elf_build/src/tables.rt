//! Appends contents, symbols and relocations.

ghost use Rattle.std.specs.Prelude.{◌≡◌, ◌+◌, ◌*◌, ◌++◌, ◌<◌, length, IfOk};
ghost use Rattle.std.specs.List.{All};
ghost use Rattle.wind_base.specs.Limits.{most_symbol_entries};
ghost use Rattle.elf_build.specs.Entries.{content_of as content_of_body, number_of as number_of_place, sym_entry as sym_entry_of, rel_entry as rel_entry_of};
ghost use Rattle.elf_build.specs.File.{contents_of, symbols_from, symbols_of, relocs_of};
ghost use Rattle.elf_build.specs.Writable.{HasNumber, HasEntry, HasSymbol};

use crate::put::{put_bytes, put_relocation, put_symbol};
use elf_read::standard::{SHN_ABS, SHN_COMMON, SHN_UNDEF};
use elf_read::{Body, Rel, RelaEntry, Sect, Sym, SymPlace, SymbolEntry};
use std::alloc::AllocError;

/// The content of a section in the file.
pub(crate) fn content(body: &Body) -> &[u8]
    ensures { result.now ≡ content_of_body body.now }
{
    match body {
        Body::Bytes(bytes) => bytes.as_slice(),
        Body::Size(_) => &[],
    }
}

/// Appends the contents of all sections.
#[tactic(auto, unfolding(crate::specs::File::contents_of), using(crate::proofs::Joins::flat_step))]
pub(crate) fn put_contents(out: &mut Vec<u8>, sections: &[Sect]) -> Result<(), AllocError>
    ensures { IfOk result (λ u. out.new.items ≡ out.old.items ++ contents_of sections.now) }
{
    for s in sections {
        put_bytes(out, content(&s.body))?;
    }
    Ok(())
}

// The section number for a place.
fn number_of(place: SymPlace) -> u16
    requires { HasNumber place }
    ensures { result ≡ number_of_place place }
{
    match place {
        SymPlace::Undefined => SHN_UNDEF,
        SymPlace::Absolute => SHN_ABS,
        SymPlace::Common => SHN_COMMON,
        SymPlace::Section(i) => i as u16 + 1,
        SymPlace::Elsewhere => SHN_UNDEF,
    }
}

// The entry of a symbol, whose name begins at this place.
#[tactic(auto, unfolding(crate::specs::Entries::sym_entry))]
fn sym_entry(name: u32, s: &Sym) -> SymbolEntry
    requires { HasEntry s.now }
    ensures { result ≡ sym_entry_of name s.now }
{
    SymbolEntry {
        name,
        value: s.value,
        size: s.size,
        info: 16 * s.binding + s.kind,
        section: number_of(s.place),
    }
}

#[tactic(auto, using(crate::proofs::Joins::two))]
fn put_symbols_from(out: &mut Vec<u8>, symbols: &[Sym]) -> Result<(), AllocError>
    requires few { length symbols.now < most_symbol_entries }
    requires fit { All HasEntry symbols.now }
    ensures { IfOk result (λ u. out.new.items ≡ out.old.items ++ symbols_from 1 symbols.now) }
{
    let mut name = 1;
    for s in symbols {
        put_symbol(out, sym_entry(name, s))?;
        name += s.name.bytes().len() as u32 + 1;
    }
    Ok(())
}

/// Appends the symbol table.
#[tactic(auto, unfolding(crate::specs::File::symbols_of), using(crate::proofs::Joins::two))]
pub(crate) fn put_symbols(out: &mut Vec<u8>, symbols: &[Sym]) -> Result<(), AllocError>
    requires few { length symbols.now < most_symbol_entries }
    requires fit { All HasEntry symbols.now }
    ensures { IfOk result (λ u. out.new.items ≡ out.old.items ++ symbols_of symbols.now) }
{
    let none = SymbolEntry {
        name: 0,
        value: 0,
        size: 0,
        info: 0,
        section: SHN_UNDEF,
    };
    put_symbol(out, none)?;
    put_symbols_from(out, symbols)
}

// The entry of a relocation.
#[tactic(auto, unfolding(crate::specs::Entries::rel_entry))]
fn rel_entry(r: Rel) -> RelaEntry
    requires { r.symbol < most_symbol_entries }
    ensures { result ≡ rel_entry_of r }
{
    RelaEntry {
        offset: r.offset,
        info: 256 * r.symbol + r.kind as u32,
        addend: r.addend,
    }
}

/// Appends the relocations.
#[tactic(auto, unfolding(crate::specs::File::relocs_of), using(crate::proofs::Joins::flat_step))]
pub(crate) fn put_relocs(out: &mut Vec<u8>, relocs: &[Rel]) -> Result<(), AllocError>
    requires { All HasSymbol relocs.now }
    ensures { IfOk result (λ u. out.new.items ≡ out.old.items ++ relocs_of relocs.now) }
{
    for r in relocs {
        put_relocation(out, rel_entry(*r))?;
    }
    Ok(())
}
