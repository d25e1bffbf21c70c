//! The table of the outcomes of a sweep: each outcome with how many members have it and which one
//! has it first.
#![tactic(auto)]

ghost use Rattle.sweep_table.specs.Laws.{JoinLaw};

mod joining;
mod outcome;
mod runs;
mod sweep;
mod table;
mod tally;

pub use outcome::Outcome;
pub use runs::Run;
pub use sweep::{Encoding, Sweep};
pub use table::Row;
pub use tally::AddErr;

/// The law of joining: the table of neighbours is made of the tables of both, and neighbours can be
/// joined in any grouping.
pub fn join_law()
    ensures { JoinLaw }
{}
