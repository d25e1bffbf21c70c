//! A run as an SVG picture: a row for the interrupt level, one for each task, and one for each mutex and
//! each queue that a task waited for, over board time.
#![tactic(auto)]

mod areas;
mod axis;
mod frame;
mod layout;
mod list;
mod marks;
mod objects;
mod palette;
mod rows;
mod scale;
mod svg;
#[cfg(test)]
mod tests;

pub use areas::{Area, AreaKind, Areas, band_of, bar_of};
pub use frame::{Picture, add_empty_picture, add_picture};
pub use layout::RowName;
pub use marks::{Kind, Mark};
pub use objects::{Ownership, QueueLength};
