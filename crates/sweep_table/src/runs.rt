//! Runs of members with equal outcomes.

ghost use Rattle.std.specs.Prelude.{◌≡◌, ◌+◌, ◌-◌, ◌<◌, ◌^◌, IsTrue, length, slice_index_or, OnOk, OnErr};
ghost use Rattle.sweep_table.specs.Runs.{members_in, count_at as count_at_lem, first_at as first_at_lem, Grows};
ghost use Rattle.sweep_table.specs.declared.runs.Run.{Run as RunLem};

use std::alloc::AllocError;

/// Neighbours with one outcome.
#[derive(Clone, Copy, Debug, PartialEq, Eq)]
pub struct Run {
    /// How many members there are, at least 1.
    pub length: u64,
    /// The number of their outcome among the known ones.
    pub place: usize,
}

// Whether the last run has this outcome.
fn ends_with(runs: &[Run], place: usize) -> bool
    ensures { IsTrue result → (0 < length runs.now) × ((d : RunLem) → (slice_index_or runs.now (length runs.now - 1) d).place ≡ place) }
{
    match runs {
        [.., last] => last.place == place,
        [] => false,
    }
}

/// Adds members with one outcome, to the last run if that has it. If memory runs out, nothing
/// changes.
pub(crate) fn add_members(runs: &mut Vec<Run>, place: usize, length: u64) -> Result<(), AllocError>
    requires { members_in runs.old.items + length < 2 ^ 64 }
    ensures ok { OnOk result (Grows runs.old.items runs.new.items place length) }
    ensures err { OnErr result (runs.new.items ≡ runs.old.items) }
{
    if ends_with(runs, place) {
        let last = runs.len() - 1;
        runs[last].length += length;
        return Ok(());
    }
    runs.push(Run { length, place })?;
    Ok(())
}

/// How many members have outcome number `place`.
pub(crate) fn count_at(runs: &[Run], place: usize) -> u64
    requires { members_in runs.now < 2 ^ 64 }
    ensures { result ≡ count_at_lem place runs.now }
{
    let mut count = 0;
    for run in runs {
        if run.place == place {
            count += run.length;
        }
    }
    count
}

/// How many members stand before the first run with outcome number `place`.
pub(crate) fn first_at(runs: &[Run], place: usize) -> u64
    requires { members_in runs.now < 2 ^ 64 }
    ensures { result ≡ first_at_lem place runs.now }
{
    let mut first = 0;
    for run in runs {
        if run.place == place {
            return first;
        }
        first += run.length;
    }
    first
}
