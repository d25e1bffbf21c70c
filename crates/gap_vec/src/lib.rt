//! Vectors with a gap before their elements, so that a change moves the fewer of them.
#![tactic(auto)]

mod gap_vec;

pub use gap_vec::GapVec;
pub use wind_base::NoMemory;
