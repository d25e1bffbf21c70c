//! The call that adds a symbol.

ghost use Rattle.std.specs.Prelude.{◌≡◌, ◌<◌, ◌≤◌, length, IfOk, OnErr};
ghost use Rattle.wind_base.specs.Limits.{longest_name};
ghost use Rattle.call_rows.specs.SymbolRows.{kind_of_number as kind_of_number_lem, with_kind as with_kind_lem, symbol_row};

use board_mem::Ram;
use kernel_world::{DONE, Reply};
use std::alloc::Global;
use symbol_table::{SymKind, Symbol, Symbols};
use wind_base::limits::{NAME_BYTES, SYMBOLS};
use wind_base::{Errno, Name, NoMemory};

/// The arguments of symAdd after the table.
#[derive(Clone, Copy)]
pub struct NewSymbol {
    /// The address of the symbol's name.
    pub name: u32,
    /// The symbol's value.
    pub value: u32,
    /// The number of the symbol's kind: 1 text, 2 data, 3 bss, 4 absolute.
    pub kind: u32,
}

// The kind that has this number.
fn kind_of_number(number: u32) -> Option<SymKind>
    ensures { result ≡ kind_of_number_lem number }
{
    match number {
        1 => Some(SymKind::TextSym),
        2 => Some(SymKind::DataSym),
        3 => Some(SymKind::BssSym),
        4 => Some(SymKind::AbsSym),
        _ => None,
    }
}

// Adds a global symbol of group 0, if its kind is valid. If memory runs out, the symbols stay as
// they were.
fn add_kind(
    alloc: Global,
    syms: &mut Symbols,
    name: &[u8],
    value: u32,
    kind: Option<SymKind>,
) -> Result<Reply, NoMemory>
    requires short { length name.now ≤ longest_name }
    requires named { 0 < length name.now }
    ensures ok { IfOk result (λ r. (r ≡ (with_kind_lem syms.old.list name.now value kind).reply)
        × (syms.new.list ≡ (with_kind_lem syms.old.list name.now value kind).symbols)) }
    ensures err { OnErr result (syms.new.list ≡ syms.old.list) }
{
    let Some(kind) = kind else {
        return Ok(Reply::Refusal(Errno::BadKind));
    };
    if syms.len() >= SYMBOLS {
        return Ok(Reply::Refusal(Errno::SymbolsFull));
    }
    let Ok(name) = Name::new(alloc, name) else {
        return Err(NoMemory);
    };
    let Ok(()) = syms.reserve(1) else {
        return Err(NoMemory);
    };
    syms.add(Symbol {
        name,
        value,
        kind,
        global: true,
        group: 0,
    });
    Ok(DONE)
}

/// symAdd: adds a global symbol of group 0, with a name of 1 to 255 bytes. Refused if the table
/// isn't 0, if the name can't be read, if there is no such kind, and if no more symbols may exist.
/// If memory runs out, the symbols stay as they were.
pub fn add_symbol(
    alloc: Global,
    syms: &mut Symbols,
    ram: &Ram,
    table: u32,
    symbol: NewSymbol,
) -> Result<Reply, NoMemory>
    ensures ok { IfOk result (λ r.
        (r ≡ (symbol_row syms.old.list ram.now.bytes table symbol.name symbol.value symbol.kind).reply)
        × (syms.new.list
        ≡ (symbol_row syms.old.list ram.now.bytes table symbol.name symbol.value symbol.kind).symbols)) }
    ensures err { OnErr result (syms.new.list ≡ syms.old.list) }
{
    if table != 0 {
        return Ok(Reply::Refusal(Errno::ObjIdError));
    }
    let Some(string) = ram.string(symbol.name) else {
        return Ok(Reply::Refusal(Errno::BadAddress));
    };
    let name = string.bytes();
    if name.is_empty() || name.len() > NAME_BYTES {
        return Ok(Reply::Refusal(Errno::BadAddress));
    }
    add_kind(alloc, syms, name, symbol.value, kind_of_number(symbol.kind))
}
