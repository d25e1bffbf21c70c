//! The id and the room for a new module.

ghost use Rattle.std.specs.Prelude.{◌≡◌, ◌≤◌, ◌+◌, None, false, IfOk, IfErr, OnOk, SomeIff, length};
ghost use Rattle.wind_base.specs.Limits.{greatest_id};
ghost use Rattle.module_loader.specs.Loading.{count_by};
ghost use Rattle.module_loader.specs.Steps.{IsRefusedBy};

use crate::module::{LoadErr, LoadedModule};
use id_table::{Ident, Table};
use symbol_table::{SymErr, Symbols};
use wind_base::limits::MODULES;
use wind_core::Kern;

/// The id that the kernel hands out next. `None` if no id is left.
#[tactic(auto, using(crate::proofs::Kernel::put_back))]
fn next_id(kern: &mut Kern) -> Option<Ident>
    requires { kern.old.lent ≡ false }
    ensures id { SomeIff result (kern.old.next_id ≤ greatest_id) kern.old.next_id }
    ensures same { kern.new ≡ kern.old }
{
    let ids = kern.lend_ids();
    let id = ids.peek();
    kern.put_ids(ids);
    id
}

/// Checks that there is an id for a new module, and reserves room for its symbols.
pub(crate) fn check_counts(
    table: &Table<LoadedModule>,
    kern: &mut Kern,
    syms: &mut Symbols,
    added: u32,
) -> Result<Ident, LoadErr>
    requires { kern.old.lent ≡ false }
    ensures id { IfOk result (λ id. id ≡ kern.old.next_id) }
    ensures same { kern.new ≡ kern.old }
    ensures list { syms.new.list ≡ syms.old.list }
    ensures room { OnOk result (added ≤ syms.new.spare) }
    ensures none { OnOk result
        (count_by (length table.now.rows) kern.old.next_id (length syms.old.list + added) ≡ None) }
    ensures refused { IfErr result
        (IsRefusedBy (length table.now.rows) kern.old.next_id (length syms.old.list + added)) }
{
    if table.len() >= MODULES as usize {
        return Err(LoadErr::ModulesFull);
    }
    let Some(id) = next_id(kern) else {
        return Err(LoadErr::IdsSpent);
    };
    match syms.reserve(added) {
        Ok(()) => Ok(id),
        Err(SymErr::TableFull) => Err(LoadErr::TableFull),
        Err(SymErr::NoMemory) => Err(LoadErr::NoMemory),
    }
}
