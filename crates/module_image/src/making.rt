//! Makes what a load writes and adds, without touching RAM or the symbol table.

ghost use Rattle.std.specs.Prelude.{◌≡◌, ◌<◌, ◌+◌, ◌^◌, ◌∷◌, IfOk, IfErr, length};
ghost use Rattle.module_image.specs.Linkable.{IsLinkable};
ghost use Rattle.module_image.specs.Needs.{needs_of};
ghost use Rattle.module_image.specs.Layout.{ends_of};
ghost use Rattle.module_image.specs.Exports.{exports as exports_lem};
ghost use Rattle.module_image.specs.Binding.{bind, is_unbound as is_unbound_lem, unbound};
ghost use Rattle.module_image.specs.Image.{image, joined, meaning_by, meanings_from, laid_both, patched_of};
ghost use Rattle.module_image.specs.Making.{IsMade, IsPatched, IsRefusal};

use crate::bytes::{lay, relocate};
use crate::exports::collect_exports;
use crate::layout::section_addresses;
use crate::locating::locate;
use crate::segments::{Ends, Places, SegmentKind};
use elf_read::{Items, Module, Sym, SymPlace};
use reloc_link::RelocErr;
use std::alloc::{AllocError, Global};
use symbol_table::{Symbol, Symbols};
use thiserror::Error;
use wind_base::{Name, NoMemory};

/// The binding `STB_WEAK`.
const STB_WEAK: u8 = 2;

/// A list of names.
pub type NameList = Items<Name>;

/// What a load writes and adds.
#[derive(Drop)]
pub struct Prepared {
    /// The bytes of text, followed by those of data.
    pub bytes: Vec<u8>,
    /// The symbols that the table gets.
    pub exports: Vec<Symbol>,
    /// The undefined names.
    pub undefined: NameList,
}

/// Why nothing was made.
#[derive(Clone, Copy, Debug, PartialEq, Eq, Error)]
pub enum PrepareErr {
    /// The first relocation that is refused.
    #[error("{0}")]
    Reloc(RelocErr),
    /// Host memory ran out.
    #[error("{NoMemory}")]
    NoMemory,
}

/// The value of a name that the module doesn't define.
#[tactic(auto, unfolding(crate::specs::Binding::bind))]
fn bound_value(syms: &Symbols, name: &[u8]) -> u32
    ensures { result ≡ bind syms.now.list name.now }
{
    match syms.find_global(name) {
        Some(s) => s.value,
        None => 0,
    }
}

fn meaning(syms: &Symbols, y: &Sym, value: Option<u32>) -> u32
    ensures { result ≡ meaning_by (bind syms.now.list) y.now.name value }
{
    match value {
        Some(v) => v,
        None => bound_value(syms, y.name.bytes()),
    }
}

/// The values of the symbols, by number; number 0 means none.
fn meanings(
    alloc: Global,
    syms: &Symbols,
    symbols: &[Sym],
    values: &[Option<u32>],
) -> Result<Vec<u32>, AllocError>
    requires { length symbols.now ≡ length values.now }
    ensures { IfOk result (λ v. v.items ≡ 0 ∷ meanings_from (bind syms.now.list) symbols.now values.now) }
{
    let mut list = Vec::new(alloc);
    list.push(0)?;
    for (i, y) in symbols.iter().enumerate() {
        list.push(meaning(syms, y, values[i]))?;
    }
    Ok(list)
}

fn is_unbound(syms: &Symbols, y: &Sym) -> bool
    ensures { result ≡ is_unbound_lem syms.now.list y.now }
{
    match y.place {
        SymPlace::Undefined => y.binding != STB_WEAK && syms.find_global(y.name.bytes()).is_none(),
        _ => false,
    }
}

/// The undefined names.
fn unbound_names(alloc: Global, syms: &Symbols, symbols: &[Sym]) -> Result<NameList, AllocError>
    ensures { IfOk result (λ v. v ≡ unbound syms.now.list symbols.now) }
{
    let mut list = Vec::new(alloc);
    for y in symbols {
        if is_unbound(syms, y) {
            list.push(y.name.copied(alloc)?)?;
        }
    }
    Ok(Items::from_vec(list))
}

/// Text and data before relocation.
fn lay_both(alloc: Global, m: &Module) -> Result<Vec<u8>, AllocError>
    requires { IsLinkable m.now }
    ensures { IfOk result (λ v. v.items ≡ laid_both m.now) }
{
    let mut bytes = Vec::new(alloc);
    lay(&mut bytes, m.sections.as_slice(), SegmentKind::Text)?;
    lay(&mut bytes, m.sections.as_slice(), SegmentKind::Data)?;
    Ok(bytes)
}

/// Where the segments begin in those bytes.
fn joined_places(ends: Ends) -> Places
    requires { ends.text + ends.«data» < 2 ^ 32 }
    ensures { result ≡ joined ends }
{
    Places {
        text: 0,
        data: ends.text as u32,
        bss: (ends.text + ends.data) as u32,
    }
}

/// Text and data after every relocation, if the sections have these addresses and the symbols, by
/// number, these values; number 0 means none. The error is the first relocation that is refused, or
/// that memory ran out.
#[tactic(auto, unfolding(crate::specs::Image::patched_of, crate::specs::Layout::addresses))]
pub fn make_bytes(
    alloc: Global,
    m: &Module,
    ends: Ends,
    own: &[u64],
    means: &[u32],
) -> Result<Vec<u8>, PrepareErr>
    requires module { IsLinkable m.now }
    requires ends { ends ≡ ends_of m.now }
    requires room { ends.text + ends.«data» < 2 ^ 32 }
    requires own { length own.now ≡ length m.now.sections }
    requires means { length means.now ≡ length m.now.symbols + 1 }
    ensures made { IfOk result
        (λ v. IsPatched (patched_of m.now own.now means.now) (ends.text + ends.«data») v.items) }
    ensures fault { IfErr result (IsRefusal (patched_of m.now own.now means.now).fault) }
{
    let Ok(places) = section_addresses(alloc, m.sections.as_slice(), joined_places(ends)) else {
        return Err(PrepareErr::NoMemory);
    };
    let Ok(mut bytes) = lay_both(alloc, m) else {
        return Err(PrepareErr::NoMemory);
    };
    match relocate(alloc, &mut bytes, &places, own, means, m.relocs.as_slice()) {
        Ok(Ok(())) => Ok(bytes),
        Ok(Err(e)) => Err(PrepareErr::Reloc(e)),
        Err(_) => Err(PrepareErr::NoMemory),
    }
}

/// Makes what a load of the module writes and adds, with its segments at these places and with this
/// id. The error is the first relocation that is refused, or that memory ran out.
#[tactic(auto, using(crate::proofs::Made::length_means, crate::proofs::Made::length_own, crate::proofs::Made::length_valued, crate::proofs::Made::ends_room), unfolding(crate::specs::Exports::exports))]
pub fn prepare(
    alloc: Global,
    m: &Module,
    syms: &Symbols,
    at: Places,
    mode: u32,
    id: u32,
) -> Result<Prepared, PrepareErr>
    requires module { IsLinkable m.now }
    requires room { (needs_of m.now).text.size + (needs_of m.now).«data».size < 2 ^ 32 }
    ensures made { IfOk result (λ p. IsMade (image m.now syms.now.list at) (needs_of m.now) p.bytes.items) }
    ensures exports { IfOk result (λ p. p.exports.items ≡ exports_lem m.now mode at id) }
    ensures undefined { IfOk result (λ p. p.undefined ≡ unbound syms.now.list m.now.symbols) }
    ensures fault { IfErr result (IsRefusal (image m.now syms.now.list at).fault) }
{
    let symbols = m.symbols.as_slice();
    let Ok(located) = locate(alloc, m, at) else {
        return Err(PrepareErr::NoMemory);
    };
    let values = located.values.as_slice();
    let Ok(means) = meanings(alloc, syms, symbols, values) else {
        return Err(PrepareErr::NoMemory);
    };
    let Ok(exports) = collect_exports(alloc, m.sections.as_slice(), mode, id, symbols, values)
    else {
        return Err(PrepareErr::NoMemory);
    };
    let Ok(undefined) = unbound_names(alloc, syms, symbols) else {
        return Err(PrepareErr::NoMemory);
    };
    match make_bytes(alloc, m, located.ends, &located.sections, &means) {
        Ok(bytes) => Ok(Prepared {
            bytes,
            exports,
            undefined,
        }),
        Err(e) => Err(e),
    }
}
