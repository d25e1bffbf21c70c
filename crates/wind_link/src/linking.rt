//! Links placed modules into one image.

ghost use Rattle.std.specs.Prelude.{◌≡◌, ℕ, ◌+◌, ◌≤◌, ◌<◌, ◌^◌, List, None, Ok, OnOk, IfOk, IfErr, length, map};
ghost use Rattle.std.specs.List.{All};
ghost use Rattle.wind_base.specs.Limits.{ram_bytes};
ghost use Rattle.module_image.specs.Image.{image_by};
ghost use Rattle.module_image.specs.Layout.{addresses, ends_of, values as values_lem};
ghost use Rattle.module_image.specs.Link.{export_by};
ghost use Rattle.module_image.specs.Linkable.{IsLinkable};
ghost use Rattle.module_image.specs.Making.{IsMade, IsRefusal as IsMakeRefusal};
ghost use Rattle.module_image.specs.Needs.{needs_of};
ghost use Rattle.module_image.specs.Opening.{opening_blocks as opening_blocks_lem};
ghost use Rattle.wind_link.specs.Flat.{segments_of};
ghost use Rattle.wind_link.specs.Linking.{load_of, number_of, linked, static_image, IsRefusal};
ghost use Rattle.wind_link.specs.Placing.{wrong_place, taken_by};
ghost use Rattle.wind_link.specs.Steps.{with_all, AreInside, index_of, refusal_of, loads, TellsPlace};
ghost use Rattle.wind_link.specs.Undefined.{pair_of, undefined as undefined_lem};
ghost use Rattle.wind_link.specs.Values.{entry_of, entry_else, value_of};

use crate::image::{extent_of, put_segments};
use crate::placing::{PlaceErr, opening_blocks, take_module};
use crate::undefined::{Undefined, add_undefined};
use crate::values::Values;
use elf_read::Module;
use mem_partition::Block;
use module_image::{Located, Places, PrepareErr, SegmentKind, locate, make_bytes, measure_module};
use reloc_link::RelocErr;
use std::alloc::Global;

/// A module, with the places of its segments.
#[derive(Drop)]
pub struct Placed {
    /// The module.
    pub module: Module,
    /// The mode of its load: 1 also adds local symbols, 0xffffffff adds none.
    pub mode: u32,
    /// The address of text; 0 if text is empty.
    pub text_at: u32,
    /// The address of data; 0 if data is empty.
    pub data_at: u32,
    /// The address of bss; 0 if bss is empty.
    pub bss_at: u32,
}

impl Placed {
    /// The places of its segments.
    pub(crate) fn places(&self) -> Places
        ensures { result ≡ (load_of self.now).at }
    {
        Places {
            text: self.text_at,
            data: self.data_at,
            bss: self.bss_at,
        }
    }
}

/// Why modules aren't linked. Modules and relocations are counted from 0.
#[derive(Clone, Copy, Debug, PartialEq, Eq)]
pub enum LinkErr {
    /// A segment of this module is wrongly placed: the first one of all.
    BadPlace(u64, SegmentKind),
    /// A relocation of this module is refused: the first one of all. The number of the relocation
    /// comes with the reason.
    BadReloc(u64, u32, RelocErr),
    /// Host memory ran out.
    NoMemory,
}

// The number of a refused relocation.
fn relocation_number(error: RelocErr) -> u32
    ensures { result ≡ number_of error }
{
    match error {
        RelocErr::Range(number) | RelocErr::Unaligned(number) | RelocErr::Unsupported(number) => {
            number
        }
    }
}

// Why the module with this number isn't linked.
fn refusal(index: u64, error: PrepareErr) -> LinkErr
    ensures { result ≡ refusal_of index error }
{
    match error {
        PrepareErr::Reloc(error) => LinkErr::BadReloc(index, relocation_number(error), error),
        PrepareErr::NoMemory => LinkErr::NoMemory,
    }
}

// The bytes of a module's text and data, with these values of the names that it doesn't define.
fn image_bytes(
    alloc: Global,
    placed: &Placed,
    located: &Located,
    values: &Values,
) -> Result<Vec<u8>, PrepareErr>
    requires linkable { IsLinkable placed.now.module }
    requires room { (needs_of placed.now.module).text.size + (needs_of placed.now.module).«data».size < 2 ^ 32 }
    requires ends { located.now.ends ≡ ends_of placed.now.module }
    requires sections { located.now.sections.items ≡ addresses placed.now.module (load_of placed.now).at }
    requires values { located.now.values.items ≡ values_lem placed.now.module (load_of placed.now).at }
    ensures made { IfOk result (λ v. IsMade
        (image_by placed.now.module (value_of values.now) (load_of placed.now).at)
        (needs_of placed.now.module) v.items) }
    ensures fault { IfErr result (IsMakeRefusal
        (image_by placed.now.module (value_of values.now) (load_of placed.now).at).fault) }
{
    let module = &placed.module;
    let Ok(means) = values.meanings(alloc, module.symbols.as_slice(), &located.values) else {
        return Err(PrepareErr::NoMemory);
    };
    make_bytes(alloc, module, located.ends, &located.sections, &means)
}

// Writes the segments of a module into the image, which begins at address `low`, and adds its
// symbols to the values. The error is the first relocation that is refused, or that memory ran out.
fn link_module<'a>(
    alloc: Global,
    values: &mut Values<'a>,
    image: &mut [u8],
    low: u64,
    placed: &'a Placed,
) -> Result<(), PrepareErr>
    requires linkable { IsLinkable placed.now.module }
    requires inside { AreInside low (length image.old) (needs_of placed.now.module) (load_of placed.now).at }
    requires few { length image.old ≤ ram_bytes }
    ensures image { OnOk result (image.new ≡ with_all low image.old (segments_of (load_of placed.now).at
        (image_by placed.now.module (value_of values.old) (load_of placed.now).at))) }
    ensures whole { OnOk result ((image_by placed.now.module (value_of values.old)
        (load_of placed.now).at).fault ≡ None) }
    ensures entries { OnOk result ((q : List ℕ) → entry_of values.new q
        ≡ entry_else (export_by (load_of placed.now) q) (entry_of values.old q)) }
    ensures length { length image.new ≡ length image.old }
    ensures fault { IfErr result (IsMakeRefusal
        (image_by placed.now.module (value_of values.old) (load_of placed.now).at).fault) }
{
    let module = &placed.module;
    let at = placed.places();
    let Ok(needs) = measure_module(alloc, module) else {
        return Err(PrepareErr::NoMemory);
    };
    let Ok(located) = locate(alloc, module, at) else {
        return Err(PrepareErr::NoMemory);
    };
    let bytes = image_bytes(alloc, placed, &located, values)?;
    put_segments(image, low, needs, at, &bytes);
    let symbols = module.symbols.as_slice();
    match values.add_symbols(placed.mode, symbols, &located.values) {
        Ok(()) => Ok(()),
        Err(_) => Err(PrepareErr::NoMemory),
    }
}

/// Linked modules.
#[derive(Drop)]
pub(crate) struct Linked<'a> {
    /// The bytes of the image.
    pub image: Vec<u8>,
    /// The undefined names, module by module, in symbol order.
    pub undefined: Vec<Undefined<'a>>,
}

/// Links modules that are rightly placed; `taken` are the blocks of the pool at the start, followed
/// by those of the modules. The error is the first relocation that is refused, or that memory ran
/// out.
pub(crate) fn link_placed<'a>(
    alloc: Global,
    list: &'a [Placed],
    taken: &[Block],
) -> Result<Linked<'a>, LinkErr>
    requires linkable { All (λ p. IsLinkable p.module) list.now }
    requires placed { wrong_place 0 opening_blocks_lem (loads list.now) ≡ None }
    requires taken { taken.now ≡ taken_by opening_blocks_lem (loads list.now) }
    ensures done { IfOk result (λ v. linked (loads list.now) ≡ Ok v.image.items) }
    ensures undefined { IfOk result (λ v. map pair_of v.undefined.items ≡ undefined_lem (loads list.now)) }
    ensures refused { IfErr result (IsRefusal (linked (loads list.now))) }
    ensures index { IfErr result (λ e. index_of e ≤ length list.now) }
{
    let extent = extent_of(&taken[2..]);
    let Ok(mut image) = extent.zeros(alloc) else {
        return Err(LinkErr::NoMemory);
    };
    let Ok(mut values) = Values::opening(alloc) else {
        return Err(LinkErr::NoMemory);
    };
    let mut names = Vec::new(alloc);
    for (i, placed) in list.iter().enumerate() {
        let symbols = placed.module.symbols.as_slice();
        match add_undefined(&mut names, &values, symbols, i as u64 + 1) {
            Ok(()) => {}
            Err(_) => return Err(LinkErr::NoMemory),
        }
        match link_module(alloc, &mut values, &mut image, extent.low, placed) {
            Ok(()) => {}
            Err(error) => return Err(refusal(i as u64, error)),
        }
    }
    Ok(Linked {
        image,
        undefined: names,
    })
}

// The blocks of the pool at the start, followed by those that the modules take; or the first segment
// that is wrongly placed.
fn take_all(alloc: Global, list: &[Placed]) -> Result<Vec<Block>, LinkErr>
    requires { All (λ p. IsLinkable p.module) list.now }
    ensures placed { OnOk result (wrong_place 0 opening_blocks_lem (loads list.now) ≡ None) }
    ensures taken { IfOk result (λ v. v.items ≡ taken_by opening_blocks_lem (loads list.now)) }
    ensures wrong { IfErr result (TellsPlace (wrong_place 0 opening_blocks_lem (loads list.now))) }
{
    let Ok(mut taken) = opening_blocks(alloc) else {
        return Err(LinkErr::NoMemory);
    };
    for (i, placed) in list.iter().enumerate() {
        let Ok(needs) = measure_module(alloc, &placed.module) else {
            return Err(LinkErr::NoMemory);
        };
        match take_module(&mut taken, needs, placed.places()) {
            Ok(()) => {}
            Err(PlaceErr::Wrong(kind)) => return Err(LinkErr::BadPlace(i as u64, kind)),
            Err(PlaceErr::NoMemory) => return Err(LinkErr::NoMemory),
        }
    }
    Ok(taken)
}

/// Links modules at their places into one image: the bytes from the least address of any segment to
/// the end of the last one, with zeros between segments. A name that a module doesn't define has the
/// value that the latest module before it gives it, or else the address of the kernel's call. All
/// places are tested before any relocation.
pub fn link_all(alloc: Global, list: &[Placed]) -> Result<Vec<u8>, LinkErr>
    requires { All (λ p. IsLinkable p.module) list.now }
    ensures done { IfOk result (λ v. static_image (loads list.now) ≡ Ok v.items) }
    ensures refused { IfErr result (IsRefusal (static_image (loads list.now))) }
{
    let taken = match take_all(alloc, list) {
        Ok(taken) => taken,
        Err(error) => return Err(error),
    };
    match link_placed(alloc, list, &taken) {
        Ok(linked) => Ok(linked.image),
        Err(error) => Err(error),
    }
}
