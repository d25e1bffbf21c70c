//! Lists of happenings.

ghost use Rattle.std.specs.Prelude.{◌≡◌, ◌++◌, ◌∷◌, [], OnOk};

use crate::happening::Happening;
use wind_base::NoMemory;

/// Adds a happening at the end.
pub(crate) fn add(list: &mut Vec<Happening>, happening: Happening) -> Result<(), NoMemory>
    ensures { OnOk result (list.new.items ≡ list.old.items ++ happening ∷ []) }
{
    if list.push(happening).is_err() {
        return Err(NoMemory);
    }
    Ok(())
}
