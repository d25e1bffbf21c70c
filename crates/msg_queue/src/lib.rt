//! Message queues (VxWorks 5.4 Reference Manual, msgQLib): sends, receives, and the tasks that wait
//! for them.
#![tactic(auto)]

mod asks;
mod calls;
mod comings;
mod creation;
mod effects;
mod laws;
mod message;
mod plans;
mod queue;
mod queues;
mod size;
mod words;

pub use asks::Ask;
pub use laws::{calm_law, conservation_law, count_law, kept_law, run_law};
pub use queue::Queue;
pub use queues::Queues;
pub use size::{LONGEST_MESSAGE, MESSAGES, MSG_Q_FIFO, MSG_Q_PRIORITY, QUEUE_BYTES};
pub use wind_core::Took;
pub use words::{Got, MakeErr, Receiving, Sending};
