//! The lines of a trace: `TIME STEP WHO WHAT`, one for each thing that happened.
#![tactic(auto)]

mod changes;
mod ending;
mod form;
mod happenings;
mod laws;
mod lines;
mod page;
mod pieces;

pub use changes::add_awaited;
pub use form::{LineForm, Outcome, TextLines};
pub use laws::joining_law;
pub use lines::Moment;
pub use page::Page;
pub use pieces::{add, add_decimal, add_escaped, add_wide};
