//! The rows of symbols, as `lkup` shows them.

ghost use Rattle.std.specs.Prelude.{◌≡◌, ◌++◌, ◌∷◌, [], map, OnOk, OnErr, IfOk};
ghost use Rattle.std.specs.List.{filter, flat_map};
ghost use Rattle.id_table.specs.Sorting.{sorted};
ghost use Rattle.text_show.specs.Columns.{with_text};
ghost use Rattle.text_show.specs.Symbols.{has_part as has_part_lem, is_shown, name_before, kind_word as kind_word_lem, symbol_row, symbol_rows_of};

use crate::numeral::hex_digits;
use crate::page::{Cell, add, add_cell, write};
use std::alloc::Global;
use symbol_table::{SymKind, Symbol, Symbols};
use wind_base::{NoMemory, OutBuf};

// Whether a text contains a part.
fn has_part(text: &[u8], part: &[u8]) -> bool
    ensures { result ≡ has_part_lem part.now text.now }
{
    let mut rest = text;
    while !rest.starts_with(part) {
        match rest.split_first() {
            Some((_, after)) => rest = after,
            None => return false,
        }
    }
    true
}

// The word for what a symbol stands for.
fn kind_word(kind: SymKind) -> &'static [u8]
    ensures { result.now ≡ kind_word_lem kind }
{
    match kind {
        SymKind::TextSym => b"text",
        SymKind::DataSym => b"data",
        SymKind::BssSym => b"bss",
        SymKind::AbsSym => b"abs",
    }
}

// Adds the row of a symbol.
#[tactic(auto, unfolding(crate::specs::Symbols::symbol_row))]
fn add_symbol(page: &mut Vec<u8>, symbol: &Symbol) -> Result<(), NoMemory>
    ensures { OnOk result (page.new.items ≡ page.old.items ++ symbol_row symbol.now) }
{
    add_cell(page, &Cell::Left(25, symbol.name.bytes()))?;
    add(page, b" 0x")?;
    add(page, hex_digits(8, symbol.value).as_slice())?;
    add(page, b" ")?;
    add(page, kind_word(symbol.kind))?;
    add(page, b"\n")?;
    Ok(())
}

// Appends a symbol to others, if its name contains the part.
fn take_shown<'a>(
    found: &mut Vec<&'a Symbol>,
    symbol: &'a Symbol,
    part: &[u8],
) -> Result<(), NoMemory>
    ensures { OnOk result (map (λ s. s.now) found.new.items
        ≡ map (λ s. s.now) found.old.items ++ filter (is_shown part.now) (symbol.now ∷ [])) }
{
    if has_part(symbol.name.bytes(), part) {
        if found.push(symbol).is_err() {
            return Err(NoMemory);
        }
    }
    Ok(())
}

// The symbols whose names contain the part, in order of adding.
fn shown<'a>(alloc: Global, symbols: &'a Symbols, part: &[u8]) -> Result<Vec<&'a Symbol>, NoMemory>
    ensures { IfOk result (λ found. map (λ s. s.now) found.items ≡ filter (is_shown part.now) symbols.now.list) }
{
    let mut found = Vec::new(alloc);
    for number in 0..symbols.len() {
        if let Some(symbol) = symbols.at(number) {
            take_shown(&mut found, symbol, part)?;
        }
    }
    Ok(found)
}

// Sorts symbols by name; those with the same name keep their order.
fn sort_by_name(symbols: &mut Vec<&Symbol>) -> Result<(), NoMemory>
    ensures { OnOk result (map (λ s. s.now) symbols.new.items
        ≡ sorted name_before (map (λ s. s.now) symbols.old.items)) }
{
    symbols.sort_by(|s, t| s.name.bytes().cmp(t.name.bytes()))?;
    Ok(())
}

// Adds the rows of symbols.
fn add_symbols(page: &mut Vec<u8>, symbols: &[&Symbol]) -> Result<(), NoMemory>
    ensures { OnOk result (page.new.items
        ≡ page.old.items ++ flat_map symbol_row (map (λ s. s.now) symbols.now)) }
{
    for symbol in symbols {
        add_symbol(page, symbol)?;
    }
    Ok(())
}

// Makes the rows.
#[tactic(auto, unfolding(crate::specs::Symbols::symbol_rows_of))]
fn symbol_page(alloc: Global, symbols: &Symbols, part: &[u8]) -> Result<Vec<u8>, NoMemory>
    ensures { IfOk result (λ p. p.items ≡ symbol_rows_of symbols.now.list part.now) }
{
    let mut found = shown(alloc, symbols, part)?;
    sort_by_name(&mut found)?;
    let mut page = Vec::new(alloc);
    add_symbols(&mut page, &found)?;
    Ok(page)
}

/// Writes a row for each symbol whose name contains the part, as the shell's `lkup` shows them: by
/// name, byte by byte, and those with the same name in order of adding. The empty part shows every
/// symbol. The free room of `out` stays the same.
///
/// # Errors
///
/// If host memory runs out, nothing is written.
pub fn symbol_rows(
    alloc: Global,
    symbols: &Symbols,
    part: &[u8],
    out: &mut OutBuf,
) -> Result<(), NoMemory>
    ensures ok { OnOk result (out.new ≡ with_text out.old (symbol_rows_of symbols.now.list part.now)) }
    ensures err { OnErr result (out.new ≡ out.old) }
{
    let page = symbol_page(alloc, symbols, part)?;
    write(out, &page)
}
