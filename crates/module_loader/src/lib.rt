//! The module loader: loads a module whole or not at all, and unloads it.
#![tactic(auto)]

mod blocks;
mod commit;
mod counts;
mod laws;
mod loader;
mod module;
mod modules;
mod names;

pub use laws::{hold_law, live_law, write_law};
pub use module::{LoadErr, Loaded, LoadedModule, NoSuchModule, Segment};
pub use modules::Modules;
