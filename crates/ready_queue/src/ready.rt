//! The queue of ready tasks.

ghost use Rattle.std.specs.Prelude.{◌≡◌, ◌<◌, [], None, length, IfOk, is_some};
ghost use Rattle.ready_queue.specs.Order.{Order, pri_of, with_task, without_task, rotated, first_id};

use crate::map::{PRIORITIES, PriorityMap, WORDS, first, mark};
use linked_lists::{IdLists, Ident};
use std::alloc::Global;
use std::marker::Model;
use wind_base::{NoMemory, Pri};

/// The ready tasks: a linked list for each priority, all in one slab, and a bit map of the
/// priorities whose list isn't empty.
#[derive(Drop)]
pub struct Ready {
    tasks: IdLists<()>,
    map: PriorityMap,
}

impl Model for Ready {
    ghost use Rattle.ready_queue.specs.Order.{Order};

    ghost Value = { Order };

    ghost use Rattle.ready_queue.specs.Inside.{tasks_from, IsMapped};

    ghost view = { λ r. record { tasks = tasks_from 0 r.tasks.chains; room = r.tasks.room } };

    ghost invariant = { λ r. IsMapped r.tasks.chains r.map.words };
}

impl Ready {
    /// An empty queue with room for `n` tasks. No other call takes memory.
    pub fn reserved(alloc: Global, n: u32) -> Result<Ready, NoMemory>
        ensures { IfOk result (λ r. r ≡ record { tasks = []; room = n }) }
    {
        let tasks = IdLists::reserved(alloc, PRIORITIES, n)?;
        Ok(Ready {
            tasks,
            map: PriorityMap { words: [0; WORDS] },
        })
    }

    /// The number of ready tasks.
    pub fn len(&self) -> usize
        ensures { result ≡ length self.now.tasks }
    {
        self.tasks.len()
    }

    /// The greatest number of ready tasks.
    pub fn room(&self) -> usize
        ensures { result ≡ self.now.room }
    {
        self.tasks.room()
    }

    /// Adds a ready task after all others of its priority. It must not be in the queue yet, and the
    /// queue must have room for it.
    pub fn put(&mut self, pri: Pri, who: Ident)
        requires absent { pri_of self.old.tasks who ≡ None }
        requires room { length self.old.tasks < self.old.room }
        ensures { self.new ≡ with_task self.old (pri, who) }
    {
        self.tasks.insert_before(pri.get() as usize, None, who, ());
        mark(&mut self.map.words, pri.get(), true);
    }

    /// Removes a task. `false` if it isn't in the queue; then nothing changes.
    pub fn take(&mut self, who: Ident) -> bool
        ensures value { result ≡ is_some (pri_of self.old.tasks who) }
        ensures tasks { self.new ≡ without_task self.old who }
    {
        let Some(list) = self.tasks.list_of(who) else {
            return false;
        };
        self.tasks.remove(who);
        let on = self.tasks.first(list).is_some();
        mark(&mut self.map.words, list as u32, on);
        true
    }

    /// Moves a task after all others of its priority. `false` if it isn't in the queue; then
    /// nothing changes.
    pub fn rotate(&mut self, who: Ident) -> bool
        ensures value { result ≡ is_some (pri_of self.old.tasks who) }
        ensures tasks { self.new ≡ rotated self.old who }
    {
        self.tasks.facts();
        let Some(list) = self.tasks.list_of(who) else {
            return false;
        };
        self.tasks.remove(who);
        self.tasks.insert_before(list, None, who, ());
        true
    }

    /// The first ready task: of the least priority number, and of those the one added first. None
    /// if no task is ready.
    pub fn first(&self) -> Option<Ident>
        ensures { result ≡ first_id self.now.tasks }
    {
        let list = first(&self.map.words)?;
        self.tasks.first(list as usize)
    }
}
