//! What the runs of the wind machine do with the bytes of the console: each is left, in a line, or
//! dropped for a reason that has a name.
#![tactic(auto)]

mod laws;

pub use laws::console_law;
