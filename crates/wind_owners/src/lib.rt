//! Who owns each mutex: a step of the wind machine changes it only by a call that names the mutex, and
//! a trace tells each change.
#![tactic(auto)]

mod laws;

pub use laws::{owner_law, owners_law};
