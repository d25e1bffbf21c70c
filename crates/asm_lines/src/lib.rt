//! The lines of an assembler's source text: what each puts into its section, and the names that it defines, mentions
//! and makes global. A refused line is named with its cause.
#![tactic(auto)]

mod draft;
mod error;
mod name_map;
mod names;
mod section;

pub use draft::{Draft, draft_of};
pub use error::{AsmErr, Cause};
pub use name_map::NameMap;
pub use names::{Label, Names};
pub use section::{Fix, Section};
