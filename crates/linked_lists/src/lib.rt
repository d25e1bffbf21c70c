//! Linked lists whose nodes are in one slab, and such lists by id.
#![tactic(auto)]

mod id_lists;
mod index;
mod lists;
mod node;

pub use id_lists::IdLists;
pub use id_table::{Ident, NoMemory, Place};
pub use lists::Lists;
