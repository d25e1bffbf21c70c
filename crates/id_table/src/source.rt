//! The source of ids.

ghost use Rattle.std.specs.Prelude.{◌≡◌, ◌<◌, ◌≤◌, ◌+◌, ◌-◌, true, false, SomeIff, nat_le, if◌then◌else◌};
ghost use Rattle.wind_base.specs.Limits.{greatest_id};
ghost use Rattle.id_table.specs.Source.{one_given};

use crate::ident::Ident;
use std::marker::Model;
use wind_base::limits::IDS;

/// The ids not given yet. They are given in rising order, each once. A contract sees the next id,
/// and whether the ids are lent to another source.
#[derive(Drop)]
pub struct IdSource {
    next: u32,
    lent: bool,
}

impl Model for IdSource {
    ghost use Rattle.std.specs.Prelude.{◌<◌, ◌≤◌, ◌+◌};
    ghost use Rattle.wind_base.specs.Limits.{greatest_id};
    ghost use Rattle.id_table.specs.Source.{Ids};

    ghost Value = { Ids };

    ghost view = { λ i. record { next = i.next; lent = i.lent } };

    ghost invariant = { λ i. (0 < i.next) × (i.next ≤ greatest_id + 1) };
}

impl IdSource {
    /// A source of all ids, from 1 on.
    pub fn new() -> IdSource
        ensures { result ≡ record { next = 1; lent = false } }
    {
        IdSource {
            next: 1,
            lent: false,
        }
    }

    /// Lends the ids to another source. This source gives none until they are put back, so no id is
    /// given twice.
    pub fn lend(&mut self) -> IdSource
        requires { self.old.lent ≡ false }
        ensures value { result ≡ self.old }
        ensures mark { self.new ≡ record self.old { lent = true } }
    {
        self.lent = true;
        IdSource {
            next: self.next,
            lent: false,
        }
    }

    /// Takes lent ids back. None of them may have been given before.
    pub fn put(&mut self, ids: IdSource)
        requires lent { self.old.lent ≡ true }
        requires whole { ids.lent ≡ false }
        requires ahead { self.old.next ≤ ids.next }
        ensures { self.new ≡ ids }
    {
        self.next = ids.next;
        self.lent = false;
    }

    /// The next id that will be given. None if no id is left.
    pub fn peek(&self) -> Option<Ident>
        ensures { SomeIff result (self.now.next ≤ greatest_id) self.now.next }
    {
        Ident::new(self.next)
    }

    /// How many ids are left.
    pub fn left(&self) -> u32
        ensures value { result ≡ greatest_id + 1 - self.now.next }
        ensures sound { (0 < self.now.next) × (self.now.next ≤ greatest_id + 1) }
    {
        IDS - (self.next - 1)
    }

    /// Gives the next id. None if no id is left.
    pub(crate) fn draw(&mut self) -> Option<Ident>
        requires { self.old.lent ≡ false }
        ensures id { SomeIff result (self.old.next ≤ greatest_id) self.old.next }
        ensures above { 0 < self.old.next }
        ensures next { self.new ≡ (if nat_le self.old.next greatest_id then one_given self.old else self.old) }
    {
        let id = Ident::new(self.next)?;
        self.next += 1;
        Some(id)
    }
}
