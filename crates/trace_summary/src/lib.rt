//! The figures of a run and of each of its tasks: sums over the lines of its trace and the longest
//! stretches of its spans, as JSON and as a table.
#![tactic(auto)]

mod by_id;
mod counts;
mod hold;
mod json;
mod laws;
mod list;
mod response;
mod stretch;
mod summary;
mod table;
mod tally;
mod times;
mod usage;

pub use counts::TaskCounts;
pub use hold::{Hold, Holding};
pub use json::summary_text;
pub use laws::{longest_law, tasks_law};
pub use stretch::Stretch;
pub use summary::{Summary, TaskSummary, share};
pub use table::table_text;
pub use tally::Tally;
pub use times::{LongestTimes, TaskTimes};
pub use usage::{Object, ObjectKind, Usage};
