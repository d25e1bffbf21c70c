//! Safe sections, and the deletion of tasks, which waits for the end of the target's safe sections.
#![tactic(auto)]

mod deleting;
mod laws;
mod safety;

pub use deleting::{Deed, Deleted, delete};
pub use laws::{gone_law, kept_law};
pub use safety::{lessen, safe, unsafe_by};
