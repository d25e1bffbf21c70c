//! Joins the outcomes of neighbours.

ghost use Rattle.std.specs.Prelude.{◌≡◌, ◌+◌, ◌<◌, ◌^◌, ◌++◌, OnOk, OnErr};
ghost use Rattle.sweep_table.specs.Runs.{outcomes_in, outcomes_of, IsTally, IsSweep, HasTooMany, IsJoined, IsJoinedPart};
ghost use Rattle.sweep_table.specs.declared.tally.AddErr.TheVariants as errors;

use crate::outcome::Outcome;
use crate::runs::Run;
use crate::tally::{AddErr, Tally, add};
use std::alloc::Global;

/// Adds runs of members that have known outcomes. If that fails, a prefix of them is added.
pub(crate) fn join(
    alloc: Global,
    tally: &mut Tally,
    known: &[Outcome],
    runs: &[Run],
    members: u64,
) -> Result<(), AddErr>
    requires sound { IsTally tally.old }
    requires next { IsSweep known.now runs.now members }
    requires fits { tally.old.members + members < 2 ^ 64 }
    ensures ok { OnOk result (IsJoined tally.old tally.new (outcomes_in known.now runs.now)) }
    ensures too_many { result ≡ Err errors.TooMany → HasTooMany (outcomes_of tally.old ++ outcomes_in known.now runs.now) }
    ensures err { OnErr result (IsJoinedPart tally.old tally.new (outcomes_in known.now runs.now)) }
{
    for run in runs {
        add(alloc, tally, known[run.place].text(), run.length)?;
    }
    Ok(())
}
