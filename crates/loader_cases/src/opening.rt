//! The state of the parts at the beginning of a session.

ghost use Rattle.std.specs.Prelude.{◌≡◌, false, IfOk};

use board_mem::Ram;
use case_files::Trouble;
use id_table::Table;
use mem_partition::{Class, Part};
use std::alloc::Global;
use symbol_table::{SymKind, Symbol, Symbols};
use wind_base::{BoardKind, Name, NoMemory, tables_law};
use wind_core::Kern;

/// What each byte of RAM holds.
const FILL: u8 = 0xee;

/// The size of each allocated block, in bytes.
pub const BLOCK: u32 = 16;

/// The group of symbols that belong to no module.
const NO_MODULE: u32 = 0;

/// A kernel that has handed out this many ids, or all.
pub fn kern_after(alloc: Global, ids: u32) -> Result<Kern, NoMemory>
    ensures { IfOk result (λ kern. kern.lent ≡ false) }
{
    let mut kern = Kern::new(alloc)?;
    match Table::reserved(alloc, 1) {
        Ok(mut table) => {
            spend(&mut kern, &mut table, ids);
            Ok(kern)
        }
        Err(error) => Err(error),
    }
}

// Takes this many ids, or all that are left.
fn spend(kern: &mut Kern, table: &mut Table<()>, ids: u32)
    requires { kern.old.lent ≡ false }
    ensures { kern.new.lent ≡ false }
{
    for _ in 0..ids {
        if table.len() > 0 {
            return;
        }
        let Ok(id) = kern.add_to(table, ()) else {
            return;
        };
        table.remove(id);
    }
}

/// A partition of this pool with the limit of a kind of board, with this many blocks allocated.
pub fn part_after(
    alloc: Global,
    kind: BoardKind,
    start: u32,
    end: u32,
    blocks: u32,
) -> Result<Part, NoMemory> {
    // gives the bound of the boards' limits
    tables_law();
    let mut part = Part::with_limit(alloc, start, end, kind.rules().blocks)?;
    for _ in 0..blocks {
        let _ = part.alloc(BLOCK, BLOCK, Class::User);
    }
    Ok(part)
}

/// A table with this many symbols, all with the same name.
pub fn symbols_after(alloc: Global, count: u32) -> Result<Symbols, Trouble> {
    let mut syms = Symbols::new(alloc)?;
    for _ in 0..count {
        add(alloc, &mut syms)?;
    }
    Ok(syms)
}

fn add(alloc: Global, syms: &mut Symbols) -> Result<(), Trouble> {
    let name = Name::new(alloc, b"old").or(Err(NoMemory))?;
    syms.reserve(1).or(Err(NoMemory))?;
    syms.add(Symbol {
        name,
        value: 0,
        kind: SymKind::AbsSym,
        global: true,
        group: NO_MODULE,
    });
    Ok(())
}

/// RAM of this many bytes. No byte is zero.
pub fn filled(alloc: Global, size: u32) -> Result<Ram, NoMemory> {
    let mut ram = Ram::new(alloc, size)?;
    let _ = ram.fill(0, size, FILL);
    Ok(ram)
}
