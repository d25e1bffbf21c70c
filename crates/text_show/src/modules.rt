//! The table of modules.

ghost use Rattle.std.specs.Prelude.{◌≡◌, ◌++◌, ◌∷◌, map, OnOk, OnErr, IfOk};
ghost use Rattle.std.specs.List.{flat_map};
ghost use Rattle.text_show.specs.Columns.{row_rest, with_text};
ghost use Rattle.text_show.specs.Modules.{module_header, module_row, module_table_of, segment_cell};

use crate::numeral::{hex_digits, numeral};
use crate::page::{Cell, add, add_cell, add_next, add_row, write};
use id_table::Ident;
use module_loader::{LoadedModule, Modules, Segment};
use std::alloc::Global;
use wind_base::{NoMemory, OutBuf};

// Adds the header.
#[tactic(auto, unfolding(crate::specs::Modules::module_header))]
fn add_header(page: &mut Vec<u8>) -> Result<(), NoMemory>
    ensures { OnOk result (page.new.items ≡ page.old.items ++ module_header) }
{
    add_row(
        page,
        &[
            Cell::Left(24, b"MODULE"),
            Cell::Left(8, b"ID"),
            Cell::Left(8, b"TEXT"),
            Cell::Left(8, b"DATA"),
            Cell::Left(8, b"BSS"),
        ],
    )
}

// Adds the address of a segment after another cell.
fn add_address(page: &mut Vec<u8>, segment: &Segment) -> Result<(), NoMemory>
    ensures { OnOk result (page.new.items ≡ page.old.items ++ 32 ∷ segment_cell segment.now) }
{
    add(page, b" ")?;
    add(page, hex_digits(8, segment.addr).as_slice())
}

// Adds the addresses of segments, and the end of the line.
fn add_addresses(page: &mut Vec<u8>, segments: &[Segment]) -> Result<(), NoMemory>
    ensures { OnOk result (page.new.items ≡ page.old.items ++ row_rest (map segment_cell segments.now)) }
{
    for segment in segments {
        add_address(page, segment)?;
    }
    add(page, b"\n")
}

// Adds the row of a module.
#[tactic(auto, unfolding(crate::specs::Modules::module_row))]
fn add_module(page: &mut Vec<u8>, id: Ident, loaded: &LoadedModule) -> Result<(), NoMemory>
    ensures { OnOk result (page.new.items ≡ page.old.items ++ module_row (id, loaded.now)) }
{
    let number = numeral(16, false, id.get());
    add_cell(page, &Cell::Left(24, loaded.name.bytes()))?;
    add_next(page, &Cell::Right(8, number.as_slice()))?;
    add_addresses(page, &loaded.segments)?;
    Ok(())
}

// Adds the rows of all modules, by id.
fn add_modules(page: &mut Vec<u8>, modules: &Modules) -> Result<(), NoMemory>
    ensures { OnOk result (page.new.items ≡ page.old.items ++ flat_map module_row modules.now.rows) }
{
    modules.facts();
    let mut last = 0;
    while let Some(id) = modules.next_after(last) {
        last = id.get();
        let Some(loaded) = modules.get(last) else {
            unreachable!()
        };
        add_module(page, id, loaded)?;
    }
    Ok(())
}

// Makes the table of modules.
#[tactic(auto, unfolding(crate::specs::Modules::module_table_of))]
fn module_page(alloc: Global, modules: &Modules) -> Result<Vec<u8>, NoMemory>
    ensures { IfOk result (λ p. p.items ≡ module_table_of modules.now.rows) }
{
    let mut page = Vec::new(alloc);
    add_header(&mut page)?;
    add_modules(&mut page, modules)?;
    Ok(page)
}

/// Writes the table of modules, as the shell's `moduleShow` shows it: a header, and a row for each
/// module by id. The free room of `out` stays the same.
///
/// # Errors
///
/// If host memory runs out, nothing is written.
pub fn module_rows(alloc: Global, modules: &Modules, out: &mut OutBuf) -> Result<(), NoMemory>
    ensures ok { OnOk result (out.new ≡ with_text out.old (module_table_of modules.now.rows)) }
    ensures err { OnErr result (out.new ≡ out.old) }
{
    let page = module_page(alloc, modules)?;
    write(out, &page)
}
