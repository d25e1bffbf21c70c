//! The files of a folder, each fetched once and kept.
#![tactic(auto)]

mod kept;

pub use kept::{KeptFiles, Unkept};
pub use live_loading::FileAnswer;
