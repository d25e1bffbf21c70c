//! The index: where the node of each id is.

ghost use Rattle.std.specs.Prelude.{◌≡◌, Some, IsSome};
ghost use Rattle.id_table.specs.Records.{of_id, Rising};
ghost use Rattle.id_table.specs.Entries.{entry_id};
ghost use Rattle.linked_lists.specs.Named.{key_found};

use id_table::Ident;
use id_table::entry::{Entry, position_of};

// The key of the node of an id that has one.
pub(crate) fn key_at(index: &[Entry], who: Ident) -> usize
    requires rising { Rising entry_id index.now }
    requires there { IsSome (of_id entry_id index.now who) }
    ensures { of_id entry_id index.now who ≡ Some (record { id = who; key = result }) }
{
    match position_of(index, who) {
        Some(at) => index[at].key,
        None => unreachable!(),
    }
}

// The key of the node of an id. None if `next` is none, or if the id has no node.
pub(crate) fn key_of(index: &[Entry], next: Option<Ident>) -> Option<usize>
    requires { Rising entry_id index.now }
    ensures { result ≡ key_found index.now next }
{
    let at = position_of(index, next?)?;
    Some(index[at].key)
}
