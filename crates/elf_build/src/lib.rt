//! The object file of a module: the inverse of reading one.
#![tactic(auto)]

mod building;
mod groups;
mod headers;
mod judging;
mod laws;
mod lengths;
mod name_tables;
mod put;
mod tables;

pub use building::build;
pub use judging::is_buildable;
pub use laws::reads_back;
