//! What a trace reads of a board before and after each step.
#![tactic(auto)]

mod after;
mod before;
mod running;
mod snapshot;
mod waited;

pub use after::look_after;
pub use before::{actor_of, look_before};
pub use board_player::{Board, Phase};
pub use running::{last_actor, running_task};
pub use snapshot::{empty_snapshot, retake_task, take_snapshot};
pub use waited::awaited_by;
