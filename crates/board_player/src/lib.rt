//! The board: the wind machine's state, and one step of it at a time.
#![tactic(auto)]

mod board;
mod bursts;
mod clock;
mod loading;
mod order;
mod outside;
mod parts;
mod routine_steps;
mod settling;
mod shell_steps;
mod task_steps;

pub use board::Board;
pub use board_actors::{brought, chunk_len};
pub use live_loading::FileAnswer;
use wind_base::Name;
pub use wind_machine::{Next, Phase, extend_law, instant_law, live_law, silent_law};

/// What the board answers when it is asked for the next step.
#[derive(Drop)]
pub enum Step {
    /// The step was made.
    Stepped,
    /// There is no further step.
    Quiet,
    /// The step loads the file with this name, and `step_load` makes it. Nothing has changed.
    NeedsFile(Name),
    /// Host memory ran out. The board is as it was before.
    NoMemory,
}
