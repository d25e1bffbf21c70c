//! Lists of records in an order and by id, and tables of kernel objects, by ids that are never used
//! again.
#![tactic(auto)]

ghost use Rattle.id_table.specs.Laws.{SortedLaw, FirstLaw, SameLaw};

pub mod entry;
mod ident;
pub mod sides;
mod source;
mod table;

pub use ident::{Ident, Place};
pub use source::IdSource;
pub use table::Table;
pub use wind_base::NoMemory;

/// The law of `sorted`: the sorted list has the same elements, and no element is before an earlier
/// one in the order.
pub fn sorted_law<T>()
    ensures { SortedLaw T }
{}

/// The law of `first`: the first element in order is in the list, and no element is before it.
pub fn first_law<T>()
    ensures { FirstLaw T }
{}

/// The law of equals: if only equal elements tie, a sorted list doesn't depend on the order of its
/// elements before.
pub fn same_law<T>()
    ensures { SameLaw T }
{}
