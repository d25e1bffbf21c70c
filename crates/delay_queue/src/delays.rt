//! The queue of tasks that wait for a tick.

ghost use Rattle.std.specs.Prelude.{◌≡◌, ◌<◌, [], None, length, IfOk, is_some};
ghost use Rattle.delay_queue.specs.Wakes.{Order, wake_of, with_task, without_task, due_at, without_due};

use crate::gaps::{LIST, Position, last_without, lengthen, lessen, position_of};
use linked_lists::{IdLists, Ident, NoMemory};
use std::alloc::Global;
use std::marker::Model;

/// The tasks that wait for a tick: one linked list, in which each node stores its wake less that of
/// the node before it, in ticks. The first node stores its wake itself.
#[derive(Drop)]
pub struct Delays {
    tasks: IdLists<u64>,
    // the wake of the last task; 0 if no task waits
    last: u64,
}

impl Model for Delays {
    ghost use Rattle.linked_lists.specs.Chains.{chain_at};
    ghost use Rattle.delay_queue.specs.Wakes.{Order};

    ghost Value = { Order };

    ghost use Rattle.std.specs.Prelude.{◌≡◌};
    ghost use Rattle.delay_queue.specs.Inside.{wakes_from, total, IsTimed};

    ghost view = { λ d. record { tasks = wakes_from 0 (chain_at d.tasks.chains 0); room = d.tasks.room } };

    ghost invariant = { λ d. IsTimed d.tasks.chains × (d.last ≡ total (chain_at d.tasks.chains 0)) };
}

impl Delays {
    /// An empty queue with room for `n` tasks. No other call takes memory.
    pub fn reserved(alloc: Global, n: u32) -> Result<Delays, NoMemory>
        ensures { IfOk result (λ d. d ≡ record { tasks = []; room = n }) }
    {
        let tasks = IdLists::reserved(alloc, 1, n)?;
        Ok(Delays { tasks, last: 0 })
    }

    /// The number of tasks that wait.
    pub fn len(&self) -> usize
        ensures { result ≡ length self.now.tasks }
    {
        self.tasks.len()
    }

    /// The greatest number of tasks that wait.
    pub fn room(&self) -> usize
        ensures { result ≡ self.now.room }
    {
        self.tasks.room()
    }

    /// Adds a task that waits for the tick `wake`, after all tasks with the same wake or an earlier
    /// one. It must not be in the queue yet, and the queue must have room for it.
    pub fn put(&mut self, who: Ident, wake: u64)
        requires absent { wake_of self.old.tasks who ≡ None }
        requires room { length self.old.tasks < self.old.room }
        ensures { self.new ≡ with_task self.old (who, wake) }
    {
        self.tasks.facts();
        let Position { next, left } = position_of(&self.tasks, self.last, wake);
        self.tasks.insert_before(LIST, next, who, left);
        let next = self.tasks.next(who);
        lessen(&mut self.tasks, next, left);
        self.last = self.last.max(wake);
    }

    /// Removes a task. `false` if it isn't in the queue; then nothing changes.
    pub fn take(&mut self, who: Ident) -> bool
        ensures value { result ≡ is_some (wake_of self.old.tasks who) }
        ensures tasks { self.new ≡ without_task self.old who }
    {
        self.tasks.facts();
        let next = self.tasks.next(who);
        let Some(gap) = self.tasks.remove(who) else {
            return false;
        };
        self.last = last_without(self.last, next.is_none(), gap);
        lengthen(&mut self.tasks, next, gap);
        true
    }

    /// The first task, if its wake is at most `tick`: of the tasks with the least wake, the one
    /// added first. None if no task is due.
    pub fn first_due(&self, tick: u64) -> Option<Ident>
        ensures { result ≡ due_at self.now.tasks tick }
    {
        let wake = *self.tasks.first_value(LIST)?;
        if wake > tick {
            return None;
        }
        self.tasks.first(LIST)
    }

    /// Removes the first task if its wake is at most `tick`: of the tasks with the least wake, the
    /// one added first. None if no task is due; then nothing changes.
    pub fn due(&mut self, tick: u64) -> Option<Ident>
        ensures value { result ≡ due_at self.old.tasks tick }
        ensures tasks { self.new ≡ without_due self.old tick }
    {
        let who = self.first_due(tick)?;
        self.take(who);
        Some(who)
    }
}
