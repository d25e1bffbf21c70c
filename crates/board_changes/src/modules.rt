//! The changes of modules.

ghost use Rattle.std.specs.Prelude.{◌≡◌, ◌++◌, ◌∷◌, [], OnOk, if◌then◌else◌};
ghost use Rattle.board_changes.specs.Modules.{is_in as is_in_lem, loads, unloads, module_changes};

use crate::change::Change;
use crate::list::add;
use id_table::Ident;
use wind_base::NoMemory;

// Whether an id is in a list.
fn is_in(ids: &[Ident], id: Ident) -> bool
    ensures { result ≡ is_in_lem ids.now id }
{
    ids.iter().any(|other| *other == id)
}

// Adds a change, unless it is none.
fn add_unless(list: &mut Vec<Change>, is_none: bool, change: Change) -> Result<(), NoMemory>
    ensures { OnOk result (list.new.items ≡ list.old.items ++ (if is_none then [] else change ∷ [])) }
{
    if is_none {
        return Ok(());
    }
    add(list, change)
}

// Adds the modules that are new.
fn add_loads(list: &mut Vec<Change>, before: &[Ident], after: &[Ident]) -> Result<(), NoMemory>
    ensures { OnOk result (list.new.items ≡ list.old.items ++ loads before.now after.now) }
{
    for id in after {
        add_unless(list, is_in(before, *id), Change::Loaded { id: *id })?;
    }
    Ok(())
}

// Adds the modules that are gone.
fn add_unloads(list: &mut Vec<Change>, before: &[Ident], after: &[Ident]) -> Result<(), NoMemory>
    ensures { OnOk result (list.new.items ≡ list.old.items ++ unloads after.now before.now) }
{
    for id in before {
        add_unless(list, is_in(after, *id), Change::Unloaded { id: *id })?;
    }
    Ok(())
}

/// Adds what a step changed of modules, given their ids: those that are new, and those that are
/// gone.
pub fn add_module_changes(
    list: &mut Vec<Change>,
    before: &[Ident],
    after: &[Ident],
) -> Result<(), NoMemory>
    ensures { OnOk result (list.new.items ≡ list.old.items ++ module_changes before.now after.now) }
{
    add_loads(list, before, after)?;
    add_unloads(list, before, after)
}
