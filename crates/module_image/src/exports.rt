//! What a load adds to the symbol table.

ghost use Rattle.std.specs.Prelude.{◌≡◌, ◌≤◌, ◌&&◌, Some, length, IfOk};
ghost use Rattle.wind_base.specs.Limits.{most_symbol_entries};
ghost use Rattle.module_image.specs.Exports.{is_global as is_global_lem, is_wanted as is_wanted_lem, is_defined as is_defined_lem, export_count, kind_at, kind_of as kind_of_lem, exported, exports_from};

use crate::layout::segment;
use crate::segments::SegmentKind;
use elf_read::{Sect, Sym, SymPlace, find_shape};
use std::alloc::{AllocError, Global};
use symbol_table::{SymKind, Symbol};

/// The mode of a load that also adds local symbols.
const LOCALS_TOO: u32 = 1;

/// The mode of a load that adds no symbols.
const NO_SYMBOLS: u32 = 0xffff_ffff;

/// The flag of a section with code: `SHF_EXECINSTR`.
const SHF_EXECINSTR: u32 = 4;

/// The binding `STB_GLOBAL`; `STB_WEAK` is above it.
const STB_GLOBAL: u8 = 1;

/// The type `STT_FUNC`; `STT_NOTYPE` and `STT_OBJECT` are below it.
const STT_FUNC: u8 = 2;

/// Whether other modules see the symbol.
fn is_global(y: &Sym) -> bool
    ensures { result ≡ is_global_lem y.now }
{
    y.binding >= STB_GLOBAL
}

/// Whether the mode adds the symbol, if the module defines it.
fn is_wanted(mode: u32, y: &Sym) -> bool
    ensures { result ≡ is_wanted_lem mode y.now }
{
    mode != NO_SYMBOLS
        && !y.name.bytes().is_empty()
        && (is_global(y) || mode == LOCALS_TOO && y.kind <= STT_FUNC)
}

fn is_defined(place: SymPlace) -> bool
    ensures { result ≡ is_defined_lem place }
{
    match place {
        SymPlace::Undefined | SymPlace::Elsewhere => false,
        _ => true,
    }
}

/// Whether a load in this mode adds the symbol for modules that are loaded later, if the module
/// defines it.
pub fn is_visible(mode: u32, y: &Sym) -> bool
    ensures { result ≡ (is_wanted_lem mode y.now && is_global_lem y.now) }
{
    is_wanted(mode, y) && is_global(y)
}

fn is_counted(mode: u32, y: &Sym) -> bool
    ensures { result ≡ (is_defined_lem y.now.place && is_wanted_lem mode y.now) }
{
    is_defined(y.place) && is_wanted(mode, y)
}

/// How many of the symbols a load in this mode adds.
pub(crate) fn count_exports(mode: u32, symbols: &[Sym]) -> u32
    requires { length symbols.now ≤ most_symbol_entries }
    ensures value { result ≡ export_count mode symbols.now }
    ensures few { result ≤ length symbols.now }
{
    let mut count = 0u32;
    for (i, y) in symbols.iter().enumerate() {
        count += u32::from(is_counted(mode, y));
    }
    count
}

fn section_kind(s: &Sect) -> SymKind
    ensures { result ≡ kind_at (Some s.now) }
{
    if s.flags & SHF_EXECINSTR == SHF_EXECINSTR {
        return SymKind::TextSym;
    }
    match segment(find_shape(s)) {
        SegmentKind::Bss => SymKind::BssSym,
        SegmentKind::Text | SegmentKind::Data => SymKind::DataSym,
    }
}

fn kind_of(sections: &[Sect], place: SymPlace) -> SymKind
    ensures { result ≡ kind_of_lem sections.now place }
{
    match place {
        SymPlace::Absolute | SymPlace::Undefined | SymPlace::Elsewhere => SymKind::AbsSym,
        SymPlace::Common => SymKind::BssSym,
        SymPlace::Section(n) => {
            if (n as usize) < sections.len() {
                section_kind(&sections[n as usize])
            } else {
                SymKind::DataSym
            }
        }
    }
}

/// The table entry for a symbol with this value.
fn export(
    alloc: Global,
    sections: &[Sect],
    id: u32,
    y: &Sym,
    value: u32,
) -> Result<Symbol, AllocError>
    ensures { IfOk result (λ s. s ≡ exported sections.now id y.now value) }
{
    let name = y.name.copied(alloc)?;
    Ok(Symbol {
        name,
        value,
        kind: kind_of(sections, y.place),
        global: is_global(y),
        group: id,
    })
}

/// What a load adds to the table, in symbol order, if the symbols have these values.
pub(crate) fn collect_exports(
    alloc: Global,
    sections: &[Sect],
    mode: u32,
    id: u32,
    symbols: &[Sym],
    values: &[Option<u32>],
) -> Result<Vec<Symbol>, AllocError>
    requires { length symbols.now ≡ length values.now }
    ensures { IfOk result (λ v. v.items ≡ exports_from sections.now mode id symbols.now values.now) }
{
    let mut list = Vec::new(alloc);
    for (i, y) in symbols.iter().enumerate() {
        if let Some(value) = values[i] {
            if is_wanted(mode, y) {
                list.push(export(alloc, sections, id, y, value)?)?;
            }
        }
    }
    Ok(list)
}
