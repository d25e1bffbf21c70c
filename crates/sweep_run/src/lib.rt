//! One member of a sweep, played: its run, and the outcome of that run.
#![tactic(auto)]

mod finish;
mod marks;
mod outcome;
mod playing;
mod shown;
mod start;

pub use finish::Finish;
pub use kept_files::{FileAnswer, KeptFiles};
pub use playing::play;
pub use shown::add_shown;
pub use start::Start;
