//! The outline of an object file: its module without the sections' bytes.

ghost use Rattle.std.specs.Prelude.{◌≡◌, ◌<◌, ◌^◌, ◌++◌, Ok, IfOk, IfErr, map};
ghost use Rattle.elf_read.specs.Contents.{body_of as body_at, sect_of as sect_at, sects_at, module_at, FailsRightly};
ghost use Rattle.elf_read.specs.Modules.{IsModule, size_of};
ghost use Rattle.elf_read.specs.Numbered.{gathered};
ghost use Rattle.elf_read.specs.Outline.{has_bytes, shape_of, outline_of};
ghost use Rattle.elf_read.specs.Rules.{checked};
ghost use Rattle.elf_read.specs.Tables.{header_count as header_count_of, header as header_at};

use crate::checking::check;
use crate::entries::SectionHeader;
use crate::error::ElfErr;
use crate::items::Items;
use crate::module::{Body, Module, Sect, SymList};
use crate::reading::{complete, read_syms, section_numbers};
use crate::standard::SHT_NOBITS;
use crate::tables::{content, header, header_count, is_loaded};
use std::alloc::{AllocError, Global};
use wind_base::NoMemory;

/// The shape of a loaded section in memory.
#[derive(Clone, Copy, Debug, PartialEq, Eq, Drop)]
pub struct Shape {
    /// `sh_flags` of its header.
    pub flags: u32,
    /// The alignment of its first byte: a power of two up to 65,536.
    pub align: u32,
    /// The size in bytes.
    pub size: u64,
    /// Whether the file holds the section's bytes. If not, they are zeros.
    pub has_bytes: bool,
}

/// The module of an object file, without the sections' bytes and without relocations.
#[derive(Drop)]
pub struct Outline {
    /// The shapes of the loaded sections, by section number.
    pub shapes: Items<Shape>,
    /// All symbols, from number 1 on.
    pub symbols: SymList,
}

// The size in bytes of section number `i` in memory.
fn size_at(bytes: &[u8], i: usize, h: SectionHeader) -> u64
    requires low { i < 2 ^ 16 }
    requires is { h ≡ header_at bytes.now i }
    ensures { result ≡ size_of (body_at bytes.now i h) }
{
    if h.kind == SHT_NOBITS {
        return u64::from(h.size);
    }
    content(bytes, i).len() as u64
}

// Whether the file holds the bytes of section number `i`.
fn is_held(bytes: &[u8], i: usize, h: SectionHeader) -> bool
    ensures { result ≡ has_bytes (body_at bytes.now i h) }
{
    if h.kind == SHT_NOBITS {
        return false;
    }
    true
}

#[tactic(auto, unfolding(crate::specs::Contents::sect_of))]
fn read_shape(bytes: &[u8], i: usize) -> Shape
    requires { i < 2 ^ 16 }
    ensures { result ≡ shape_of (sect_at bytes.now i) }
{
    let h = header(bytes, i);
    let align = if h.align == 0 { 1 } else { h.align };
    Shape {
        flags: h.flags,
        align,
        size: size_at(bytes, i, h),
        has_bytes: is_held(bytes, i, h),
    }
}

// Adds the shape of section number `i`, if the section is loaded.
fn read_shapes_at(list: &mut Vec<Shape>, bytes: &[u8], i: usize) -> Result<(), AllocError>
    requires { i < 2 ^ 16 }
    ensures { IfOk result (λ u. list.new.items ≡ list.old.items ++ map shape_of (sects_at bytes.now i)) }
{
    if is_loaded(bytes, i) {
        list.push(read_shape(bytes, i))?;
    }
    Ok(())
}

// The shapes of all loaded sections.
#[tactic(auto, using(crate::proofs::Gather::gathered_step, crate::proofs::Gather::gathered_last))]
fn read_shapes(alloc: Global, bytes: &[u8]) -> Result<Vec<Shape>, AllocError>
    ensures { IfOk result (λ v. v.items
        ≡ gathered 0 (header_count_of bytes.now) (λ i. map shape_of (sects_at bytes.now i))) }
{
    let mut list = Vec::new(alloc);
    let count = header_count(bytes);
    for i in 0..count {
        read_shapes_at(&mut list, bytes, i)?;
    }
    Ok(list)
}

#[tactic(auto, unfolding(crate::specs::Contents::module_at), using(crate::proofs::Shapes::outline_is))]
fn gather_outline(alloc: Global, bytes: &[u8]) -> Result<Outline, AllocError>
    ensures { IfOk result (λ o. o ≡ outline_of (module_at bytes.now)) }
{
    let numbers = section_numbers(alloc, bytes)?;
    let shapes = read_shapes(alloc, bytes)?;
    let symbols = read_syms(alloc, bytes, &numbers)?;
    Ok(Outline {
        shapes: Items::from_vec(shapes),
        symbols,
    })
}

/// Reads the outline of an object file's module, or returns the refusal of the first rule that
/// fails. It copies no bytes of a section.
#[tactic(auto, using(crate::proofs::Holding::module_is))]
pub fn read_outline(alloc: Global, bytes: &[u8]) -> Result<Outline, ElfErr>
    ensures outline { IfOk result (λ o. o ≡ outline_of (module_at bytes.now)) }
    ensures passes { IfOk result (λ o. checked bytes.now ≡ Ok tt) }
    ensures known { IfOk result (λ o. IsModule (module_at bytes.now)) }
    ensures refusal { IfErr result (FailsRightly bytes.now) }
{
    check(bytes)?;
    Ok(gather_outline(alloc, bytes)?)
}

/// Reads the module of a file, given its outline.
#[tactic(auto, unfolding(crate::specs::Contents::module_at))]
pub fn fill(alloc: Global, bytes: &[u8], outline: Outline) -> Result<Module, NoMemory>
    requires { outline ≡ outline_of (module_at bytes.now) }
    ensures { IfOk result (λ m. m ≡ module_at bytes.now) }
{
    let numbers = section_numbers(alloc, bytes)?;
    Ok(complete(alloc, bytes, &numbers, outline.symbols)?)
}

/// The shape of a section in memory.
pub fn find_shape(s: &Sect) -> Shape
    ensures { result ≡ shape_of s.now }
{
    match &s.body {
        Body::Bytes(bytes) => Shape {
            flags: s.flags,
            align: s.align,
            size: bytes.as_slice().len() as u64,
            has_bytes: true,
        },
        Body::Size(n) => Shape {
            flags: s.flags,
            align: s.align,
            size: u64::from(*n),
            has_bytes: false,
        },
    }
}
