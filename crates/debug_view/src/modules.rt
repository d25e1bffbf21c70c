//! The loaded modules.

ghost use Rattle.std.specs.Prelude.{◌≡◌, ◌++◌, IfOk, OnOk};
ghost use Rattle.debug_texts.specs.Lists.{library_text};
ghost use Rattle.debug_view.specs.Modules.{are_loaded as are_loaded_lem, is_next as is_next_lem, library_row, places_of as places_of_lem, sections_of as sections_of_lem};

use debug_texts::add_library;
use elf_read::{ElfErr, read};
use module_image::{Places, linkable_law, locate};
use module_loader::{LoadedModule, Modules};
use std::alloc::Global;
use wind_base::NoMemory;

// Where the segments of a module are.
fn places_of(module: &LoadedModule) -> Places
    ensures { result ≡ places_of_lem module.now }
{
    Places {
        text: module.segments[0].addr,
        data: module.segments[1].addr,
        bss: module.segments[2].addr,
    }
}

// The addresses at which the load of this file put the module's sections, in the order of the file.
fn sections_of(alloc: Global, module: &LoadedModule, file: &[u8]) -> Result<Vec<u64>, NoMemory>
    ensures { IfOk result (λ sections. sections.items ≡ sections_of_lem module.now file.now) }
{
    linkable_law();
    let read = match read(alloc, file) {
        Ok(read) => read,
        Err(ElfErr::NoMemory) => return Err(NoMemory),
        Err(_) => return Ok(Vec::new(alloc)),
    };
    let located = locate(alloc, &read, places_of(module))?;
    Ok(located.sections)
}

/// Adds the row of a module that was loaded from this file: its id, its name, and the addresses of
/// its sections.
pub fn add_module(
    text: &mut Vec<u8>,
    id: u32,
    module: &LoadedModule,
    file: &[u8],
) -> Result<(), NoMemory>
    ensures { OnOk result (text.new.items
        ≡ text.old.items ++ library_text (library_row id module.now file.now)) }
{
    let sections = sections_of(*text.allocator(), module, file)?;
    add_library(text, id, module.name.bytes(), &sections)
}

// Whether the first module after an id is the one with this id.
fn is_next(modules: &Modules, last: u32, id: u32) -> bool
    ensures { result ≡ is_next_lem modules.now.rows last id }
{
    match modules.next_after(last) {
        Some(next) => next.get() == id,
        None => false,
    }
}

/// Whether the loaded modules are those with these ids, in this order.
pub fn are_loaded(modules: &Modules, told: &[u32]) -> bool
    ensures { result ≡ are_loaded_lem modules.now.rows told.now }
{
    modules.facts();
    let mut last = 0;
    for id in told {
        if !is_next(modules, last, *id) {
            return false;
        }
        last = *id;
    }
    modules.next_after(last).is_none()
}
