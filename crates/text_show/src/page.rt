//! Texts in columns. A text is made as a whole before any of it is written.

ghost use Rattle.std.specs.Prelude.{◌≡◌, ◌+◌, ◌-◌, ◌++◌, ◌∷◌, map, OnOk, OnErr};
ghost use Rattle.text_show.specs.Columns.{blanks, cell_text, row, row_rest, with_text};

use std::alloc::Global;
use wind_base::{NoMemory, OutBuf};

/// A text in a column.
#[derive(Clone, Copy)]
pub(crate) enum Cell<'a> {
    /// Left-justified in this width.
    Left(usize, &'a [u8]),
    /// Right-justified in this width.
    Right(usize, &'a [u8]),
}

/// Adds bytes.
pub(crate) fn add(page: &mut Vec<u8>, piece: &[u8]) -> Result<(), NoMemory>
    ensures { OnOk result (page.new.items ≡ page.old.items ++ piece.now) }
{
    if page.extend_from_slice(piece).is_err() {
        return Err(NoMemory);
    }
    Ok(())
}

// Adds this many blanks.
fn add_blanks(page: &mut Vec<u8>, n: usize) -> Result<(), NoMemory>
    ensures { OnOk result (page.new.items ≡ page.old.items ++ blanks n) }
{
    for _ in 0..n {
        add(page, b" ")?;
    }
    Ok(())
}

/// Adds a cell.
pub(crate) fn add_cell(page: &mut Vec<u8>, cell: &Cell) -> Result<(), NoMemory>
    ensures { OnOk result (page.new.items ≡ page.old.items ++ cell_text cell.now) }
{
    match *cell {
        Cell::Left(width, text) => {
            add(page, text)?;
            add_blanks(page, width.saturating_sub(text.len()))
        }
        Cell::Right(width, text) => {
            add_blanks(page, width.saturating_sub(text.len()))?;
            add(page, text)
        }
    }
}

// Adds the cells after the first one of a row.
fn add_rest(page: &mut Vec<u8>, cells: &[Cell]) -> Result<(), NoMemory>
    ensures { OnOk result (page.new.items ≡ page.old.items ++ row_rest (map cell_text cells.now)) }
{
    for cell in cells {
        add(page, b" ")?;
        add_cell(page, cell)?;
    }
    add(page, b"\n")
}

/// Adds a row.
pub(crate) fn add_row(page: &mut Vec<u8>, cells: &[Cell]) -> Result<(), NoMemory>
    ensures { OnOk result (page.new.items ≡ page.old.items ++ row (map cell_text cells.now)) }
{
    match cells.split_first() {
        Some((first, rest)) => {
            add_cell(page, first)?;
            add_rest(page, rest)
        }
        None => add(page, b"\n"),
    }
}

/// Adds a cell after another one.
pub(crate) fn add_next(page: &mut Vec<u8>, cell: &Cell) -> Result<(), NoMemory>
    ensures { OnOk result (page.new.items ≡ page.old.items ++ 32 ∷ cell_text cell.now) }
{
    add(page, b" ")?;
    add_cell(page, cell)
}

/// Writes a finished text, for which it makes room. If memory runs out, nothing is written.
pub(crate) fn write(out: &mut OutBuf, page: &[u8]) -> Result<(), NoMemory>
    ensures ok { OnOk result (out.new ≡ with_text out.old page.now) }
    ensures err { OnErr result (out.new ≡ out.old) }
{
    if page.len() > u32::MAX as usize || out.room() >= 1 << 62 {
        return Err(NoMemory);
    }
    out.grow(page.len() as u32)?;
    let _ = out.put(page);
    Ok(())
}
