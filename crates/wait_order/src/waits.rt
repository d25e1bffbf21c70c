//! The tasks that wait.

ghost use Rattle.std.specs.Prelude.{◌≡◌, ◌<◌, [], None, length, IfOk, is_some};
ghost use Rattle.wait_order.specs.Line.{IsLine, waiter_of, with_waiter, without_waiter, first_at};

use crate::fronts::{Front, first_at as front_at, first_from};
use crate::runs::{LIST, come, go, place_of};
use linked_lists::{IdLists, Ident, NoMemory, Place};
use std::alloc::Global;
use std::marker::Model;

/// A task that waits, with the key that decides its position at its place.
#[derive(Clone, Copy, Debug, PartialEq, Eq)]
pub struct Waiter {
    /// The place at which it waits.
    pub place: Place,
    /// The task.
    pub who: Ident,
    /// Its priority there, from 0 to 255. It is 0 if the task waits in order of arrival.
    pub pri: u32,
    /// Its order number: of waiters with the same priority, the one with the lower order number is
    /// before.
    pub since: u64,
}

/// The tasks that wait, each at one place, with a limit on their number. They are in one linked
/// list, by place and then by key. An index has the first waiter of each place in use.
#[derive(Drop)]
pub struct Waits {
    waiters: IdLists<Waiter>,
    // by place
    fronts: Vec<Front>,
}

impl Model for Waits {
    ghost use Rattle.std.specs.Prelude.{◌≤◌, vec_capacity};
    ghost use Rattle.wait_order.specs.Line.{Line};

    ghost Value = { Line };

    ghost use Rattle.wait_order.specs.Inside.{by_id, waiters_in, IsKept};

    ghost view = { λ w. record { waiters = by_id (waiters_in w.waiters.chains); room = w.waiters.room } };

    ghost invariant = { λ w. (w.waiters.room ≤ vec_capacity w.fronts) × IsKept w.waiters.chains w.fronts.items };
}

impl Waits {
    /// An empty line with room for `n` tasks. No other call takes memory.
    pub fn reserved(alloc: Global, n: u32) -> Result<Waits, NoMemory>
        ensures { IfOk result (λ w. w ≡ record { waiters = []; room = n }) }
    {
        let waiters = IdLists::reserved(alloc, 1, n)?;
        let fronts = Vec::with_capacity(alloc, n as usize)?;
        Ok(Waits { waiters, fronts })
    }

    /// Does nothing. Its contract states the invariant of the line.
    pub fn facts(&self)
        ensures { IsLine self.now }
    {
        self.waiters.facts();
        // reading the index makes the invariant known
        let _ = &self.fronts;
    }

    /// The number of tasks that wait.
    pub fn len(&self) -> usize
        ensures { result ≡ length self.now.waiters }
    {
        self.waiters.len()
    }

    /// The greatest number of tasks that wait.
    pub fn room(&self) -> usize
        ensures { result ≡ self.now.room }
    {
        self.waiters.room()
    }

    /// Adds a task that waits at a place, with its order number and its priority, or 0 if it waits
    /// in order of arrival. It must not wait yet, and there must be room for it.
    pub fn put(&mut self, place: Place, who: Ident, pri: u32, since: u64)
        requires absent { waiter_of self.old.waiters who ≡ None }
        requires room { length self.old.waiters < self.old.room }
        ensures { self.new ≡ with_waiter self.old (record { place = place; who = who; pri = pri; since = since }) }
    {
        self.waiters.facts();
        let waiter = Waiter {
            place,
            who,
            pri,
            since,
        };
        let start = first_from(&self.fronts, &place);
        let next = place_of(&self.waiters, start, &waiter);
        come(&mut self.fronts, &self.waiters, &waiter);
        self.waiters.insert_before(LIST, next, who, waiter);
    }

    /// Removes a task. `false` if it doesn't wait; then nothing changes.
    pub fn take(&mut self, who: Ident) -> bool
        ensures value { result ≡ is_some (waiter_of self.old.waiters who) }
        ensures waiters { self.new ≡ without_waiter self.old who }
    {
        self.waiters.facts();
        let next = self.waiters.next(who);
        let Some(gone) = self.waiters.remove(who) else {
            return false;
        };
        go(&mut self.fronts, &self.waiters, &gone, next);
        true
    }

    /// The first task that waits at a place: by priority, then by order number, then by id. None if
    /// no task waits there.
    pub fn first(&self, place: Place) -> Option<Ident>
        ensures { result ≡ first_at self.now.waiters place }
    {
        front_at(&self.fronts, &place)
    }
}
