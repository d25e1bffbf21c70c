//! A run as JSON: as lines, an object for each thing that happened and one for the end; and as a list
//! of objects of the trace-event format.
#![tactic(auto)]

mod calls;
mod changes;
mod chrome;
mod ending;
mod form;
mod happenings;
mod lines;
mod members;

pub use form::JsonLines;
pub use members::{
    EndedWait, Flow, add_flow, add_instant, add_messages, add_opening, add_ready, add_routine,
    add_span, add_spawned, close_list, open_list,
};
