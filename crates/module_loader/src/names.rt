//! The newest module with a name.

ghost use Rattle.std.specs.Prelude.{◌≡◌, ◌<◌, length, slice_index_or};
ghost use Rattle.std.specs.Str.{bytes_eq};
ghost use Rattle.id_table.specs.Rows.{objects};
ghost use Rattle.module_loader.specs.Modules.{newest_named};

use crate::module::LoadedModule;
use id_table::{Ident, Table};

/// Whether the module at a place in the table has the name.
fn has_name(table: &Table<LoadedModule>, place: usize, name: &[u8]) -> bool
    requires { place < length table.now.rows }
    ensures { (d : LoadedModule) → result ≡ bytes_eq (slice_index_or (objects table.now.rows) place d).name name.now }
{
    table.value_at(place).name.bytes() == name
}

/// The id of the newest module with a name; ids rise along the table.
pub(crate) fn newest_in(table: &Table<LoadedModule>, name: &[u8]) -> Option<Ident>
    ensures { result ≡ newest_named table.now.rows name.now }
{
    for place in (0..table.len()).rev() {
        if has_name(table, place, name) {
            return Some(table.id_at(place));
        }
    }
    None
}
