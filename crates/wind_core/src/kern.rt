//! The kernel's tasks and counters.

ghost use Rattle.std.specs.Prelude.{◌≡◌, ◌<◌, ◌≤◌, ◌+◌, ◌^◌, ◌↔◌, true, false, [], length, slice_index_or, Some, None, IfOk, IfErr, IsOk, option_copied};
ghost use Rattle.std.specs.Borrow.{sem};
ghost use Rattle.std.specs.Option.{option_map, option_copied_mut};
ghost use Rattle.wind_base.specs.Limits.{greatest_id};
ghost use Rattle.id_table.specs.Rows.{IdsBelow, add_refusal, added};
ghost use Rattle.wind_core.specs.State.{Lives, IsKern, task_of, task_above};
ghost use Rattle.wind_core.specs.Moves.{spawn, spawn_refusal, remove, live_id};
ghost use Rattle.wind_core.specs.Waiting.{task_waits};
ghost use Rattle.wind_core.specs.Queues.{ready_tasks, delayed_tasks};

use crate::tasks::made;
use delay_queue::Delays;
use id_table::{IdSource, Ident, Table};
use ready_queue::Ready;
use std::alloc::Global;
use std::marker::Model;
use task_block::{NewTask, Task};
use wait_order::Waits;
use wind_base::limits::TASKS;
use wind_base::{Errno, NoMemory, Regs};

/// The kernel's tasks and counters.
#[derive(Drop)]
pub struct Kern {
    pub(crate) tasks: Table<Task>,
    // the waiting tasks, each by its key
    pub(crate) waits: Waits,
    // the ready tasks, in order of urgency
    pub(crate) ready: Ready,
    // the tasks that have a wake, in the order in which they wake
    pub(crate) delays: Delays,
    pub(crate) ids: IdSource,
    pub(crate) next_since: u64,
    pub(crate) tick: u64,
    pub(crate) slice: u32,
    pub(crate) last: Option<Ident>,
    // `true`: each task has its normal priority
    pub(crate) all_normal: bool,
    // `true`: no task owns an inversion-safe mutex
    pub(crate) none_holds: bool,
}

impl Model for Kern {
    ghost use Rattle.std.specs.Prelude.{◌≡◌};
    ghost use Rattle.wind_base.specs.Limits.{most_tasks};
    ghost use Rattle.wind_core.specs.State.{KernState, IsKern};
    ghost use Rattle.wind_core.specs.Inside.{kern_state, SameIds};
    ghost use Rattle.wind_core.specs.Queues.{AreQueued};
    ghost use Rattle.wind_core.specs.Notes.{AreNoted};
    ghost use Rattle.id_table.specs.Rows.{objects};

    ghost Value = { KernState };

    ghost view = { λ k. kern_state k.tasks.rows k.ids k.next_since k.tick k.slice k.last };

    ghost invariant = { λ k. ((k.tasks.room ≡ most_tasks) × SameIds k.tasks.rows
        × IsKern (kern_state k.tasks.rows k.ids k.next_since k.tick k.slice k.last)
        × AreQueued k.waits k.ready k.delays (objects k.tasks.rows))
        × AreNoted k.all_normal k.none_holds (objects k.tasks.rows) };
}

impl Kern {
    ghost use Rattle.wind_core.specs.Lends.{lends_regs, lends_found};

    /// A kernel without tasks, at tick 0. No other call takes memory.
    pub fn new(alloc: Global) -> Result<Kern, NoMemory>
        ensures { IfOk result (λ k. k ≡ record { tasks = []; tick = 0; slice = 0; next_id = 1; lent = false; next_since = 0; last = None }) }
    {
        Ok(Kern {
            tasks: Table::reserved(alloc, TASKS)?,
            waits: Waits::reserved(alloc, TASKS)?,
            ready: Ready::reserved(alloc, TASKS)?,
            delays: Delays::reserved(alloc, TASKS)?,
            ids: IdSource::new(),
            next_since: 0,
            tick: 0,
            slice: 0,
            last: None,
            all_normal: true,
            none_holds: true,
        })
    }

    /// The number of ticks so far.
    pub fn ticks(&self) -> u64
        ensures { result ≡ self.now.tick }
    {
        self.tick
    }

    /// The next order number: the count of order numbers given so far.
    pub fn next_since(&self) -> u64
        ensures { result ≡ self.now.next_since }
    {
        self.next_since
    }

    /// The number of live tasks, at most 256.
    pub fn live(&self) -> u32
        ensures { result ≡ length self.now.tasks }
    {
        self.tasks.len() as u32
    }

    /// Does nothing. Its contract states the kernel's invariant.
    pub fn facts(&self)
        ensures { IsKern self.now }
    {
        // reading the table makes the invariant known
        let _ = &self.tasks;
    }

    /// The waiting tasks, each with its place and the key that decides its position there.
    pub fn waits(&self) -> &Waits
        ensures { result.now ≡ task_waits self.now.tasks }
    {
        &self.waits
    }

    /// The ready tasks, each with its priority, in order of urgency.
    pub fn ready(&self) -> &Ready
        ensures { result.now ≡ ready_tasks self.now.tasks }
    {
        &self.ready
    }

    /// The tasks that have a wake, each with its wake, in the order in which they wake.
    pub fn delays(&self) -> &Delays
        ensures { result.now ≡ delayed_tasks self.now.tasks }
    {
        &self.delays
    }

    /// The least live id above `id`. None if there is none.
    pub fn next_task(&self, id: u32) -> Option<Ident>
        ensures { result ≡ task_above self.now.tasks id }
    {
        self.tasks.next_after(id)
    }

    /// The task with this id. None if it isn't live.
    pub fn task(&self, id: Ident) -> Option<&Task>
        ensures { option_copied result ≡ task_of self.now.tasks id }
    {
        self.tasks.get(id)
    }

    /// The id with this number, if its task is live.
    pub fn find(&self, number: u32) -> Option<Ident>
        ensures { result ≡ live_id self.now.tasks number }
    {
        let _ = &self.tasks;
        let Some(id) = Ident::new(number) else {
            return None;
        };
        match self.task(id) {
            Some(task) => Some(task.id),
            None => None,
        }
    }

    /// The task at this position; positions count from 0 by rising id.
    pub fn task_at(&self, position: u32) -> &Task
        requires { position < length self.now.tasks }
        ensures { result.now ≡ slice_index_or self.now.tasks position result.now }
    {
        self.tasks.value_at(position as usize)
    }

    /// A mutable reference to the registers of a live task.
    pub fn regs_of(&mut self, who: Ident) -> &mut Regs
        requires { Lives self.old who }
        ensures* writes_back { sem 𝓛 (lends_regs self.entry who result) }
        ensures value { option_map (λ t. t.regs) (task_of self.old.tasks who) ≡ Some result.now }
    {
        &mut self.tasks.object_mut(who).regs
    }

    /// A mutable reference to the registers of the task with this id. None if it isn't live.
    pub fn regs_mut(&mut self, who: Ident) -> Option<&mut Regs>
        ensures* writes_back { sem 𝓛 (lends_found self.entry who result) }
        ensures value { option_copied_mut result ≡ option_map (λ t. t.regs) (task_of self.old.tasks who) }
    {
        if self.task(who).is_some() {
            Some(self.regs_of(who))
        } else {
            None
        }
    }

    /// Makes a new task. It is ready, and goes after all others of its priority.
    ///
    /// # Errors
    ///
    /// `TooMany` if 256 tasks are live; otherwise `IdsSpent` if no id is left. Then nothing
    /// changes.
    pub fn spawn_record(&mut self, task: NewTask) -> Result<Ident, Errno>
        requires ids { self.old.lent ≡ false }
        requires since { self.old.next_since + 1 < 2 ^ 64 }
        ensures ok { IfOk result (λ id. (spawn_refusal self.old ≡ None) × (id ≡ self.old.next_id)
            × (self.new ≡ spawn self.old task)) }
        ensures err { IfErr result (λ e. (spawn_refusal self.old ≡ Some e) × (self.new ≡ self.old)) }
    {
        let id = self.tasks.next_id(&self.ids)?;
        let pri = task.pri;
        let Ok(id) = self
            .tasks
            .add(&mut self.ids, made(task, id, self.next_since))
        else {
            unreachable!()
        };
        self.ready.put(pri, id);
        self.next_since += 1;
        Ok(id)
    }

    /// Removes the task with this id. None if it isn't live.
    pub fn remove(&mut self, who: Ident) -> Option<Task>
        ensures value { result ≡ task_of self.old.tasks who }
        ensures tasks { self.new ≡ remove self.old who }
    {
        self.waits.take(who);
        self.ready.take(who);
        self.delays.take(who);
        self.tasks.remove(who)
    }

    /// Adds an object of another kind to its table, under the next id. If the table is full or no
    /// id is left, nothing changes and the object is returned.
    pub fn add_to<T>(&mut self, table: &mut Table<T>, value: T) -> Result<Ident, T>
        requires ids { self.old.lent ≡ false }
        requires below { IdsBelow self.old.next_id table.old.rows }
        ensures ok { IfOk result (λ id. (id ≡ self.old.next_id)
            × (self.new ≡ record self.old { next_id = id + 1 }) × (table.new ≡ added table.old id value)) }
        ensures err { IfErr result (λ v. (v ≡ value) × (self.new ≡ self.old) × (table.new ≡ table.old)) }
        ensures when { IsOk result ↔ (length table.old.rows < table.old.room) × (self.old.next_id ≤ greatest_id) }
    {
        table.add(&mut self.ids, value)
    }

    /// Makes an object of another kind: adds it to its table, under the next id.
    ///
    /// # Errors
    ///
    /// `TooMany` if the table is full; otherwise `IdsSpent` if no id is left. Then nothing changes.
    pub fn create_in<T: Drop>(&mut self, table: &mut Table<T>, value: T) -> Result<Ident, Errno>
        requires ids { self.old.lent ≡ false }
        requires below { IdsBelow self.old.next_id table.old.rows }
        ensures ok { IfOk result (λ id. (add_refusal table.old.room (length table.old.rows) self.old.next_id ≡ None)
            × (id ≡ self.old.next_id) × (self.new ≡ record self.old { next_id = self.old.next_id + 1 })
            × (table.new ≡ added table.old self.old.next_id value)) }
        ensures err { IfErr result (λ e. (add_refusal table.old.room (length table.old.rows) self.old.next_id ≡ Some e)
            × (self.new ≡ self.old) × (table.new ≡ table.old)) }
    {
        table.next_id(&self.ids)?;
        match self.add_to(table, value) {
            Ok(id) => Ok(id),
            Err(_) => unreachable!(),
        }
    }

    /// Lends the ids to the maker of other kinds of objects. Until they are put back, this kernel
    /// gives no id.
    pub fn lend_ids(&mut self) -> IdSource
        requires { self.old.lent ≡ false }
        ensures value { result ≡ record { next = self.old.next_id; lent = false } }
        ensures lent { self.new ≡ record self.old { lent = true } }
    {
        self.ids.lend()
    }

    /// Takes lent ids back. None of them may have been given before.
    pub fn put_ids(&mut self, ids: IdSource)
        requires lent { self.old.lent ≡ true }
        requires whole { ids.lent ≡ false }
        requires ahead { self.old.next_id ≤ ids.next }
        ensures { self.new ≡ record self.old { next_id = ids.next; lent = false } }
    {
        self.ids.put(ids);
    }
}
