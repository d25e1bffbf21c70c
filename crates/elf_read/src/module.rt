//! The module of an object file.

use crate::items::Items;
use wind_base::Name;

/// Bytes in order.
pub type Bytes = Items<u8>;

/// Sections, by section number.
pub type SectList = Items<Sect>;

/// Symbols, by symbol number.
pub type SymList = Items<Sym>;

/// Relocations, in the order of the file.
pub type RelList = Items<Rel>;

/// The content of a loaded section.
#[derive(Drop)]
pub enum Body {
    /// These bytes.
    Bytes(Bytes),
    /// The given number of zeros.
    Size(u32),
}

/// A loaded section.
#[derive(Drop)]
pub struct Sect {
    /// Its name.
    pub name: Name,
    /// `sh_flags` of its header.
    pub flags: u32,
    /// The alignment of its first byte: a power of two up to 65,536.
    pub align: u32,
    /// Its content.
    pub body: Body,
}

/// The place of a symbol.
#[derive(Clone, Copy, Debug, PartialEq, Eq, Drop)]
pub enum SymPlace {
    /// The symbol isn't defined in this file.
    Undefined,
    /// The symbol's value is absolute.
    Absolute,
    /// The symbol is common: its room is still to be allocated, and its value is the alignment.
    Common,
    /// The symbol is in this section; loaded sections are numbered from 0 on. Its value is the
    /// offset there, in bytes.
    Section(u32),
    /// The symbol is in a section that isn't loaded.
    Elsewhere,
}

/// A symbol.
#[derive(Drop)]
pub struct Sym {
    /// Its name. It can be empty.
    pub name: Name,
    /// Its binding (System V ABI): 0 is local, 1 global, 2 weak.
    pub binding: u8,
    /// Its type (System V ABI), from 0 to 5.
    pub kind: u8,
    /// Its value, as its place says.
    pub value: u32,
    /// Its size in bytes. 0 if it has none, or if it isn't known.
    pub size: u32,
    /// Its place.
    pub place: SymPlace,
}

/// A relocation.
#[derive(Clone, Copy, Debug, PartialEq, Eq, Drop)]
pub struct Rel {
    /// The section that it changes; loaded sections are numbered from 0 on.
    pub section: u32,
    /// The offset in that section, in bytes.
    pub offset: u32,
    /// The type (System V ABI, PowerPC Processor Supplement).
    pub kind: u8,
    /// The number of its symbol, from 1 on. 0 if it has no symbol.
    pub symbol: u32,
    /// The addend.
    pub addend: u32,
}

/// The module of an object file: the loaded sections, all symbols, and the relocations of the
/// loaded sections.
#[derive(Drop)]
pub struct Module {
    /// The loaded sections.
    pub sections: SectList,
    /// All symbols, from number 1 on.
    pub symbols: SymList,
    /// The relocations of the loaded sections.
    pub relocs: RelList,
}
