//! Loaded modules, and why a load is refused.

use elf_read::ElfErr;
use id_table::Ident;
use mem_partition::PartErr;
use module_image::NameList;
use reloc_link::RelocErr;
use thiserror::Error;
use wind_base::{Name, NoMemory};

/// A segment of a loaded module. If it has no block, both numbers are 0.
#[derive(Clone, Copy, Debug, PartialEq, Eq)]
pub struct Segment {
    /// Its address.
    pub addr: u32,
    /// Its size in bytes.
    pub size: u32,
}

/// A loaded module, with its segments text, data and bss in that order.
#[derive(Drop)]
pub struct LoadedModule {
    /// Its name, under which it was loaded.
    pub name: Name,
    /// Its segments text, data and bss.
    pub segments: [Segment; 3],
}

/// What an accepted load answers.
#[derive(Drop)]
pub struct Loaded {
    /// The id of the module.
    pub id: Ident,
    /// The undefined names, in the order of the module's symbols. They are the names of symbols
    /// that the module doesn't define, that are not weak, and that are no global of the symbol
    /// table.
    pub undefined: NameList,
}

/// Why a module is not loaded; nothing has changed. If several reasons apply, the answer is the
/// first in this order. `NoMemory` may come at any point.
#[derive(Clone, Copy, Debug, PartialEq, Eq, Error)]
pub enum LoadErr {
    /// The file isn't accepted as an object file.
    #[error("{0}")]
    Elf(ElfErr),
    /// There are 256 modules.
    #[error("too many modules")]
    ModulesFull,
    /// No id is left.
    #[error("ids spent")]
    IdsSpent,
    /// There would be more than 65,536 symbols.
    #[error("symbol table full")]
    TableFull,
    /// The partition refuses a segment: the first that it refuses of text, data and bss.
    #[error("{0}")]
    Part(PartErr),
    /// A relocation can't be made: the first in the module's list, with its number.
    #[error("{0}")]
    Reloc(RelocErr),
    /// Host memory ran out.
    #[error("{NoMemory}")]
    NoMemory,
}

/// No live module has this id.
#[derive(Clone, Copy, Debug, PartialEq, Eq, Error)]
#[error("no such module")]
pub struct NoSuchModule;
