//! The table of outcomes.

ghost use Rattle.std.specs.Prelude.{◌≡◌, ◌<◌, ◌^◌, length, IfOk};
ghost use Rattle.sweep_table.specs.Runs.{outcomes_in, members_in, IsSweep};
ghost use Rattle.sweep_table.specs.Table.{IsTable, row_at, rows_below};

use crate::outcome::Outcome;
use crate::runs::{Run, count_at, first_at};
use std::alloc::{AllocError, Global};
use std::cmp::Reverse;

/// A row of the table.
#[derive(Drop)]
pub struct Row {
    /// The outcome.
    pub outcome: Outcome,
    /// How many members have it, at least 1.
    pub count: u64,
    /// The first member that has it, counted from 0.
    pub first: u64,
}

// The row of outcome number `place`.
fn row_of(alloc: Global, known: &[Outcome], runs: &[Run], place: usize) -> Result<Row, AllocError>
    requires known { place < length known.now }
    requires fits { members_in runs.now < 2 ^ 64 }
    ensures { IfOk result (λ r. r ≡ row_at known.now runs.now place) }
{
    let outcome = Outcome::new(alloc, known[place].text())?;
    Ok(Row {
        outcome,
        count: count_at(runs, place),
        first: first_at(runs, place),
    })
}

// The rows, in the order of the known outcomes.
fn unordered(alloc: Global, known: &[Outcome], runs: &[Run]) -> Result<Vec<Row>, AllocError>
    requires { members_in runs.now < 2 ^ 64 }
    ensures { IfOk result (λ rows. rows.items ≡ rows_below (length known.now) known.now runs.now) }
{
    let mut rows = Vec::new(alloc);
    for place in 0..known.len() {
        rows.push(row_of(alloc, known, runs, place)?)?;
    }
    Ok(rows)
}

/// The table of runs of members that have known outcomes.
pub(crate) fn rows(
    alloc: Global,
    known: &[Outcome],
    runs: &[Run],
    members: u64,
) -> Result<Vec<Row>, AllocError>
    requires { IsSweep known.now runs.now members }
    ensures { IfOk result (λ rows. IsTable (outcomes_in known.now runs.now) rows.items) }
{
    let mut rows = unordered(alloc, known, runs)?;
    rows.sort_unstable_by_key(|row| (Reverse(row.count), row.first));
    Ok(rows)
}
