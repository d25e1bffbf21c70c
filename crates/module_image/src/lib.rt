//! The image of a module: where its sections and symbols are in its three segments, the bytes that
//! are loaded, the symbols that it exports, and the static link of several modules.
#![tactic(auto)]

mod bytes;
mod exports;
mod laws;
mod layout;
mod locating;
mod making;
mod segments;
mod sizes;

pub use exports::is_visible;
pub use laws::{agreement_law, count_law, layout_law, link_law, linkable_law, size_law};
pub use locating::{Located, locate};
pub use making::{NameList, PrepareErr, Prepared, make_bytes, prepare};
pub use segments::{Ends, Need, Needs, Places, SegmentKind};
pub use sizes::{count_added, measure, measure_module};
