//! The lists of threads and of modules, row by row, and the map of the memory.

ghost use Rattle.std.specs.Prelude.{◌≡◌, ◌++◌, OnOk};
ghost use Rattle.debug_texts.specs.Lists.{directory, libraries_end, libraries_start, library_path, library_text, memory_map, section_text, sections_text, thread_text, threads_end, threads_start};

use crate::xml::add_xml;
use debug_wire::{add, add_decimal, add_number};
use wind_base::NoMemory;

/// Begins the list of threads.
#[tactic(auto, unfolding(crate::specs::Lists::threads_start))]
pub fn begin_threads(text: &mut Vec<u8>) -> Result<(), NoMemory>
    ensures { OnOk result (text.new.items ≡ text.old.items ++ threads_start) }
{
    add(text, b"<?xml version=\"1.0\"?><threads>")
}

/// Adds a thread to the list: its id, its name, and words on its state.
pub fn add_thread(text: &mut Vec<u8>, id: u64, name: &[u8], words: &[u8]) -> Result<(), NoMemory>
    ensures { OnOk result (text.new.items
        ≡ text.old.items ++ thread_text (record { id = id; name = name.now; words = words.now })) }
{
    add(text, b"<thread id=\"")?;
    add_number(text, id)?;
    add(text, b"\" name=\"")?;
    add_xml(text, name)?;
    add(text, b"\">")?;
    add_xml(text, words)?;
    add(text, b"</thread>")
}

/// Ends the list of threads.
#[tactic(auto, unfolding(crate::specs::Lists::threads_end))]
pub fn end_threads(text: &mut Vec<u8>) -> Result<(), NoMemory>
    ensures { OnOk result (text.new.items ≡ text.old.items ++ threads_end) }
{
    add(text, b"</threads>")
}

// Adds a section of a module.
fn add_section(text: &mut Vec<u8>, address: u64) -> Result<(), NoMemory>
    ensures { OnOk result (text.new.items ≡ text.old.items ++ section_text address) }
{
    add(text, b"<section address=\"0x")?;
    add_number(text, address)?;
    add(text, b"\"/>")
}

// Adds the sections of a module.
fn add_sections(text: &mut Vec<u8>, addresses: &[u64]) -> Result<(), NoMemory>
    ensures { OnOk result (text.new.items ≡ text.old.items ++ sections_text addresses.now) }
{
    for address in addresses {
        add_section(text, *address)?;
    }
    Ok(())
}

// Adds the beginning of a module's path: its id between two slashes.
fn add_directory(text: &mut Vec<u8>, id: u32) -> Result<(), NoMemory>
    ensures { OnOk result (text.new.items ≡ text.old.items ++ directory id) }
{
    add(text, b"/")?;
    add_decimal(text, u64::from(id))?;
    add(text, b"/")
}

/// Adds the path of a module's file, as gdb opens it: `/ID/NAME`.
pub fn add_library_path(text: &mut Vec<u8>, id: u32, name: &[u8]) -> Result<(), NoMemory>
    ensures { OnOk result (text.new.items ≡ text.old.items ++ library_path id name.now) }
{
    add_directory(text, id)?;
    add(text, name)
}

/// Begins the list of loaded modules.
#[tactic(auto, unfolding(crate::specs::Lists::libraries_start))]
pub fn begin_libraries(text: &mut Vec<u8>) -> Result<(), NoMemory>
    ensures { OnOk result (text.new.items ≡ text.old.items ++ libraries_start) }
{
    add(
        text,
        b"<?xml version=\"1.0\"?><library-list version=\"1.0\">",
    )
}

/// Adds a loaded module to the list: its id, its name, and the addresses of its allocated sections
/// in the order of its file.
pub fn add_library(
    text: &mut Vec<u8>,
    id: u32,
    name: &[u8],
    sections: &[u64],
) -> Result<(), NoMemory>
    ensures { OnOk result (text.new.items
        ≡ text.old.items ++ library_text (record { id = id; name = name.now; sections = sections.now })) }
{
    add(text, b"<library name=\"")?;
    add_directory(text, id)?;
    add_xml(text, name)?;
    add(text, b"\">")?;
    add_sections(text, sections)?;
    add(text, b"</library>")
}

/// Ends the list of loaded modules.
#[tactic(auto, unfolding(crate::specs::Lists::libraries_end))]
pub fn end_libraries(text: &mut Vec<u8>) -> Result<(), NoMemory>
    ensures { OnOk result (text.new.items ≡ text.old.items ++ libraries_end) }
{
    add(text, b"</library-list>")
}

/// Adds the map of a memory of so many bytes from address 0 on, which can only be read.
pub fn add_memory_map(text: &mut Vec<u8>, bytes: u64) -> Result<(), NoMemory>
    ensures { OnOk result (text.new.items ≡ text.old.items ++ memory_map bytes) }
{
    add(text, b"<?xml version=\"1.0\"?><memory-map>")?;
    add(text, b"<memory type=\"rom\" start=\"0x0\" length=\"0x")?;
    add_number(text, bytes)?;
    add(text, b"\"/></memory-map>")
}
