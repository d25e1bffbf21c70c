//! Modules that lines describe, and their files.

use crate::reading::{byte, bytes};
use case_files::{Trouble, name, number};
use elf_build::{build, is_buildable};
use elf_read::{Body, Bytes, Module, Rel, RelList, Sect, SectList, Sym, SymList, SymPlace};
use std::alloc::Global;

/// The module that lines have described so far.
#[derive(Drop)]
pub struct Draft {
    alloc: Global,
    sections: Vec<Sect>,
    symbols: Vec<Sym>,
    relocs: Vec<Rel>,
}

impl Draft {
    /// A module without parts.
    pub fn new(alloc: Global) -> Draft {
        Draft {
            alloc,
            sections: Vec::new(alloc),
            symbols: Vec::new(alloc),
            relocs: Vec::new(alloc),
        }
    }

    /// Adds a section from the words `NAME FLAGS ALIGN BYTES`.
    pub fn section(&mut self, words: &[&str]) -> Result<(), Trouble> {
        let [label, flags, align, rest @ ..] = words else {
            return Err(Trouble::Unreadable);
        };
        let (flags, align) = (number(flags)?, number(align)?);
        let body = Body::Bytes(Bytes::from_vec(bytes(self.alloc, rest)?));
        self.put(label, flags, align, body)
    }

    /// Adds a section without bytes from the words `NAME FLAGS ALIGN SIZE`.
    pub fn zeros(&mut self, words: &[&str]) -> Result<(), Trouble> {
        let [label, flags, align, size] = words else {
            return Err(Trouble::Unreadable);
        };
        let (flags, align) = (number(flags)?, number(align)?);
        let body = Body::Size(number(size)?);
        self.put(label, flags, align, body)
    }

    fn put(&mut self, label: &str, flags: u32, align: u32, body: Body) -> Result<(), Trouble> {
        let name = name(self.alloc, label)?;
        self.sections.push(Sect {
            name,
            flags,
            align,
            body,
        })?;
        Ok(())
    }

    /// Adds a symbol from the words `NAME BINDING TYPE VALUE SIZE PLACE`.
    pub fn symbol(&mut self, words: &[&str]) -> Result<(), Trouble> {
        let [label, binding, kind, value, size, place] = words else {
            return Err(Trouble::Unreadable);
        };
        let (binding, kind) = (byte(binding)?, byte(kind)?);
        let (value, size) = (number(value)?, number(size)?);
        let place = place_of(place)?;
        let name = name(self.alloc, label)?;
        self.symbols.push(Sym {
            name,
            binding,
            kind,
            value,
            size,
            place,
        })?;
        Ok(())
    }

    /// Adds a relocation from the words `SECTION OFFSET TYPE SYMBOL ADDEND`.
    pub fn reloc(&mut self, words: &[&str]) -> Result<(), Trouble> {
        let [section, offset, kind, symbol, addend] = words else {
            return Err(Trouble::Unreadable);
        };
        let reloc = Rel {
            section: number(section)?,
            offset: number(offset)?,
            kind: byte(kind)?,
            symbol: number(symbol)?,
            addend: number(addend)?,
        };
        self.relocs.push(reloc)?;
        Ok(())
    }

    /// The file of the module; `None` if the module has none.
    pub fn file(self) -> Result<Option<Vec<u8>>, Trouble> {
        let module = Module {
            sections: SectList::from_vec(self.sections),
            symbols: SymList::from_vec(self.symbols),
            relocs: RelList::from_vec(self.relocs),
        };
        file_of(self.alloc, &module)
    }
}

fn file_of(alloc: Global, module: &Module) -> Result<Option<Vec<u8>>, Trouble> {
    if is_buildable(module) {
        Ok(Some(build(alloc, module)?))
    } else {
        Ok(None)
    }
}

fn place_of(word: &str) -> Result<SymPlace, Trouble> {
    match word {
        "undefined" => Ok(SymPlace::Undefined),
        "absolute" => Ok(SymPlace::Absolute),
        "common" => Ok(SymPlace::Common),
        _ => Ok(SymPlace::Section(number(word)?)),
    }
}
