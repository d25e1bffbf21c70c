//! What happens in a step of the board: the happenings of a step, from what came next and from what
//! was read of the states before and after it.
#![tactic(auto)]

mod calls;
mod cause;
mod errors;
mod happening;
mod laws;
mod level;
mod list;
mod messages;
mod moment;
mod names;
mod owners;
mod snapshot;
mod step;
mod who;

pub use cause::{Cause, cause_of};
pub use errors::errno_named;
pub use happening::Happening;
pub use laws::{
    cause_law, error_law, reply_law, run_spans_law, step_replay_law, time_law, wait_end_law,
};
pub use moment::{AfterStep, BeforeStep, Level, mutex_of};
pub use snapshot::{Snapshot, view_of};
pub use step::{StepViews, add_happenings, is_instruction};
pub use who::{Subject, actor_name, same_actor, subject_name, subject_of};
