//! A tally: the outcomes that occur, and which members have them.

ghost use Rattle.std.specs.Prelude.{◌≡◌, ◌+◌, ◌<◌, ◌^◌, ◌∷◌, ◌++◌, [], false, length, OnOk, OnErr, IfSome, IfNone, IfErr};
ghost use Rattle.std.specs.List.{All};
ghost use Rattle.std.specs.Str.{bytes_eq};
ghost use Rattle.sweep_table.specs.Runs.{outcome_at, outcomes_of, IsTally, IsSame, Adds, HasTooMany};
ghost use Rattle.sweep_table.specs.declared.tally.AddErr.TheVariants as errors;

use crate::outcome::Outcome;
use crate::runs::{Run, add_members};
use std::alloc::{AllocError, Global};
use thiserror::Error;
use wind_base::NoMemory;

// The most outcomes of a table.
const OUTCOMES: usize = 10_000;

/// Why an outcome isn't added.
#[derive(Clone, Copy, Debug, PartialEq, Eq, Error)]
pub enum AddErr {
    /// With it there are over 10,000 outcomes.
    #[error("over 10000 outcomes")]
    TooMany,
    /// Host memory ran out.
    #[error("{NoMemory}")]
    NoMemory,
}

impl From<AllocError> for AddErr {
    ghost use Rattle.std.specs.Prelude.{◌≡◌};
    ghost use Rattle.sweep_table.specs.declared.tally.AddErr.TheVariants as errors;

    ghost from_gives = { λ _ e. e ≡ errors.NoMemory };

    fn from(_error: AllocError) -> AddErr {
        AddErr::NoMemory
    }
}

/// Outcomes, and runs of members that have them.
#[derive(Drop)]
pub(crate) struct Tally {
    /// The outcomes that occur, in the order in which they were found.
    pub known: Vec<Outcome>,
    /// The runs, in the order of the members.
    pub runs: Vec<Run>,
    /// How many members there are.
    pub members: u64,
}

// The number of an outcome among the known ones.
fn place_of(known: &[Outcome], outcome: &[u8]) -> Option<usize>
    ensures some { IfSome result (λ k. (k < length known.now) × (outcome_at known.now k ≡ outcome.now)) }
    ensures none { IfNone result (All (λ x. bytes_eq x outcome.now ≡ false) known.now) }
{
    for place in 0..known.len() {
        if known[place].text() == outcome {
            return Some(place);
        }
    }
    None
}

// Adds members with outcome number `place`.
fn lengthen(tally: &mut Tally, place: usize, members: u64) -> Result<(), AddErr>
    requires sound { IsTally tally.old }
    requires known { place < length tally.old.known.items }
    requires some { 0 < members }
    requires fits { tally.old.members + members < 2 ^ 64 }
    ensures ok { OnOk result (Adds tally.old tally.new (outcome_at tally.old.known.items place) members) }
    ensures memory { IfErr result (λ e. e ≡ errors.NoMemory) }
    ensures err { OnErr result (IsSame tally.new tally.old) }
{
    add_members(&mut tally.runs, place, members)?;
    tally.members += members;
    Ok(())
}

// Adds members with an outcome that isn't known.
fn begin(alloc: Global, tally: &mut Tally, outcome: &[u8], members: u64) -> Result<(), AddErr>
    requires sound { IsTally tally.old }
    requires other { All (λ x. bytes_eq x outcome.now ≡ false) tally.old.known.items }
    requires some { 0 < members }
    requires fits { tally.old.members + members < 2 ^ 64 }
    ensures ok { OnOk result (Adds tally.old tally.new outcome.now members) }
    ensures too_many { result ≡ Err errors.TooMany → HasTooMany (outcomes_of tally.old ++ outcome.now ∷ []) }
    ensures err { OnErr result (IsSame tally.new tally.old) }
{
    let place = tally.known.len();
    if place >= OUTCOMES {
        return Err(AddErr::TooMany);
    }
    let owned = Outcome::new(alloc, outcome)?;
    if tally.known.push(owned).is_err() {
        return Err(AddErr::NoMemory);
    }
    if add_members(&mut tally.runs, place, members).is_err() {
        let _ = tally.known.pop();
        return Err(AddErr::NoMemory);
    }
    tally.members += members;
    Ok(())
}

/// Adds members with one outcome. If that fails, nothing changes.
pub(crate) fn add(
    alloc: Global,
    tally: &mut Tally,
    outcome: &[u8],
    members: u64,
) -> Result<(), AddErr>
    requires sound { IsTally tally.old }
    requires some { 0 < members }
    requires fits { tally.old.members + members < 2 ^ 64 }
    ensures ok { OnOk result (Adds tally.old tally.new outcome.now members) }
    ensures too_many { result ≡ Err errors.TooMany → HasTooMany (outcomes_of tally.old ++ outcome.now ∷ []) }
    ensures err { OnErr result (IsSame tally.new tally.old) }
{
    match place_of(&tally.known, outcome) {
        Some(place) => lengthen(tally, place, members),
        None => begin(alloc, tally, outcome, members),
    }
}
