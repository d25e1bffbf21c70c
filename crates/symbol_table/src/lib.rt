//! The symbol table: symbols in order of adding. A look-up answers the newest.
#![tactic(auto)]

mod chains;
mod hashes;
mod laws;
mod links;
mod runs;
mod search;
mod symbol;
mod table;

pub use chains::Chains;
pub use laws::{chains_law, newest_law, removal_law};
pub use symbol::{SymErr, SymKind, Symbol};
pub use table::Symbols;
