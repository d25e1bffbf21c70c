//! Runs that can be made again: a board boots anew from what its session starts from, and each
//! module file is fetched once.
#![tactic(auto)]

mod booting;
mod going;
mod laws;
mod steps;

pub use booting::boot;
pub use going::{Going, go};
pub use kept_files::KeptFiles;
pub use laws::one_run_law;
pub use steps::step;
