//! The outcomes of a sweep.

ghost use Rattle.std.specs.Prelude.{◌≡◌, ◌+◌, ◌<◌, ◌^◌, ◌∷◌, ◌++◌, [], length, take, replicate, ℕ, OnOk, OnErr, IfOk};
ghost use Rattle.sweep_table.specs.Runs.{outcomes_in, HasTooMany, IsSweep};
ghost use Rattle.sweep_table.specs.Table.{IsTable};
ghost use Rattle.sweep_table.specs.declared.tally.AddErr.TheVariants as errors;

use crate::joining::join;
use crate::outcome::Outcome;
use crate::runs::Run;
use crate::table::{Row, rows};
use crate::tally::{AddErr, Tally, add};
use std::alloc::{AllocError, Global};
use std::marker::Model;

/// The outcomes of members one after another. Memory grows with outcomes and with runs of equal
/// ones, not with members.
#[derive(Drop)]
pub struct Sweep {
    tally: Tally,
}

/// The outcomes of members as runs of neighbours with one outcome.
#[derive(Clone, Copy)]
pub struct Encoding<'a> {
    /// The outcomes that occur.
    pub known: &'a [Outcome],
    /// The runs, in the order of the members.
    pub runs: &'a [Run],
}

impl Model for Sweep {
    ghost use Rattle.std.specs.Prelude.{ℕ, List};
    ghost use Rattle.sweep_table.specs.Runs.{outcomes_of, IsTally};

    ghost Value = { List (List ℕ) };

    ghost view = { λ s. outcomes_of s.tally };

    ghost invariant = { λ s. IsTally s.tally };
}

impl Sweep {
    /// A sweep of no members.
    pub fn new(alloc: Global) -> Sweep
        ensures { result ≡ [] }
    {
        let tally = Tally {
            known: Vec::new(alloc),
            runs: Vec::new(alloc),
            members: 0,
        };
        Sweep { tally }
    }

    /// The outcomes that occur, and the runs of members that have them.
    pub fn encoding(&self) -> Encoding<'_>
        ensures sound { IsSweep result.known.now result.runs.now (length self.now) }
        ensures outcomes { self.now ≡ outcomes_in result.known.now result.runs.now }
    {
        Encoding {
            known: &self.tally.known,
            runs: &self.tally.runs,
        }
    }

    /// How many members there are.
    pub fn members(&self) -> u64
        ensures { result ≡ length self.now }
    {
        self.tally.members
    }

    /// Adds members with one outcome, at least one. If that fails, nothing changes.
    pub fn add(&mut self, alloc: Global, outcome: &[u8], members: u64) -> Result<(), AddErr>
        requires some { 0 < members }
        requires fits { length self.old + members < 2 ^ 64 }
        ensures ok { OnOk result (self.new ≡ self.old ++ replicate members outcome.now) }
        ensures too_many { result ≡ Err errors.TooMany → HasTooMany (self.old ++ outcome.now ∷ []) }
        ensures err { OnErr result (self.new ≡ self.old) }
    {
        add(alloc, &mut self.tally, outcome, members)
    }

    /// Adds the outcomes of the members that come next. If that fails, those of the first of them
    /// are added.
    pub fn join(&mut self, alloc: Global, next: &Sweep) -> Result<(), AddErr>
        requires { length self.old + length next.now < 2 ^ 64 }
        ensures ok { OnOk result (self.new ≡ self.old ++ next.now) }
        ensures too_many { result ≡ Err errors.TooMany → HasTooMany (self.old ++ next.now) }
        ensures err { OnErr result ((part : ℕ) × (self.new ≡ self.old ++ take part next.now)) }
    {
        let next = &next.tally;
        join(
            alloc,
            &mut self.tally,
            &next.known,
            &next.runs,
            next.members,
        )
    }

    /// The table.
    pub fn rows(&self, alloc: Global) -> Result<Vec<Row>, AllocError>
        ensures { IfOk result (λ rows. IsTable self.now rows.items) }
    {
        rows(
            alloc,
            &self.tally.known,
            &self.tally.runs,
            self.tally.members,
        )
    }
}
