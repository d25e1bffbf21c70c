//! Lists of changes.

ghost use Rattle.std.specs.Prelude.{◌≡◌, ◌++◌, ◌∷◌, [], OnOk};
ghost use Rattle.board_changes.specs.Listed.{listed};

use crate::change::Change;
use wind_base::NoMemory;

/// Adds a change at the end.
pub(crate) fn add(list: &mut Vec<Change>, change: Change) -> Result<(), NoMemory>
    ensures { OnOk result (list.new.items ≡ list.old.items ++ change ∷ []) }
{
    if list.extend_from_slice(&[change]).is_err() {
        return Err(NoMemory);
    }
    Ok(())
}

/// Adds a change at the end, if there is one.
pub(crate) fn add_if(list: &mut Vec<Change>, change: Option<Change>) -> Result<(), NoMemory>
    ensures { OnOk result (list.new.items ≡ list.old.items ++ listed change) }
{
    match change {
        Some(change) => add(list, change),
        None => Ok(()),
    }
}
