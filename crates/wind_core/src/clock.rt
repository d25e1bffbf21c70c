//! Which task runs, and what a tick does.

ghost use Rattle.std.specs.Prelude.{◌≡◌, ◌<◌, ◌+◌, ◌^◌, true, Some, None, IsSomeAnd, option_copied};
ghost use Rattle.std.specs.Option.{option_map};
ghost use Rattle.task_block.specs.Standing.{is_ready};
ghost use Rattle.wind_core.specs.State.{Lives, IsKern, task_of};
ghost use Rattle.wind_core.specs.Orders.{keeper as keeper_lem, last_task, most_urgent as most_urgent_lem, running, runner, first_due};
ghost use Rattle.wind_core.specs.Tick.{late_of, late_answer, late_errno, is_free as is_free_lem, count_slice_of, count_slice, wake_due, tick};
ghost use Rattle.wind_core.specs.Moves.{end_wait};

use crate::kern::Kern;
use crate::queues::rotate_over;
use crate::tasks::count_slice_tick;
use id_table::Ident;
use task_block::Task;
use wind_base::Errno;
use wind_base::words::{ERROR, OK};

// A task whose wake has come.
#[derive(Drop)]
pub(crate) struct Late {
    pub(crate) who: Ident,
    // whether it waits for something; if not, it is only delayed
    pub(crate) waits: bool,
}

impl Kern {
    // The task that ran last, if it is ready and holds the scheduler lock.
    fn keeper(&self) -> Option<&Task>
        ensures { option_copied result ≡ keeper_lem (last_task self.now.tasks self.now.last) }
    {
        let task = self.task(self.last?)?;
        if task.ready() && task.locks > 0 {
            Some(task)
        } else {
            None
        }
    }

    // The most urgent ready task.
    fn most_urgent(&self) -> Option<&Task>
        ensures { option_copied result ≡ most_urgent_lem self.now.tasks }
    {
        match self.ready.first() {
            Some(who) => self.task(who),
            None => None,
        }
    }

    /// The task that runs next, apart from interrupts. It is the task that ran last, if that is
    /// ready and holds the scheduler lock; otherwise it is the most urgent ready task. None if no
    /// task is ready.
    pub fn running(&self) -> Option<&Task>
        ensures { option_copied result ≡ running self.now }
    {
        match self.keeper() {
            Some(task) => Some(task),
            None => self.most_urgent(),
        }
    }

    /// The id of the task that runs next. None if no task is ready.
    pub fn runner(&self) -> Option<Ident>
        ensures { result ≡ runner self.now }
    {
        self.running().map(|task| task.id)
    }

    /// Records that the task ran last.
    pub fn ran(&mut self, who: Ident)
        ensures { self.new ≡ record self.old { last = Some who } }
    {
        self.last = Some(who);
    }

    /// Sets the length of a time slice in ticks. 0 means that time slices don't end (VxWorks 5.4
    /// Reference Manual, kernelTimeSlice).
    pub fn time_slice(&mut self, n: u32)
        ensures { self.new ≡ record self.old { slice = n } }
    {
        self.slice = n;
    }

    // Whether the task with this id is live and holds no scheduler lock.
    fn is_free(&self, who: Ident) -> bool
        ensures { result ≡ is_free_lem (task_of self.now.tasks who) }
    {
        match self.task(who) {
            Some(task) => task.locks == 0,
            None => false,
        }
    }

    // Counts one more tick of the time slice of this ready task, if it holds no scheduler lock.
    fn count_task_slice(&mut self, who: Ident)
        requires ready { IsSomeAnd (task_of self.old.tasks who) (λ t. is_ready t ≡ true) }
        requires since { self.old.next_since + 1 < 2 ^ 64 }
        ensures { self.new ≡ count_slice_of self.old (task_of self.old.tasks who) }
    {
        if !self.is_free(who) {
            return;
        }
        let slice = self.slice;
        let task = self.tasks.object_mut(who);
        let over = count_slice_tick(task, &mut self.next_since, slice);
        rotate_over(&mut self.ready, who, over);
    }

    // Counts one more tick of the running task's time slice, if time slices are counted.
    fn count_slice(&mut self)
        requires { self.old.next_since + 1 < 2 ^ 64 }
        ensures slice { self.new ≡ count_slice self.old }
    {
        if self.slice == 0 {
            return;
        }
        let Some(who) = self.runner() else {
            return;
        };
        self.count_task_slice(who);
    }

    // The task with this id as one whose wake has come, if it is live.
    fn late(&self, who: Ident) -> Option<Late>
        ensures { result ≡ option_map late_of (task_of self.now.tasks who) }
    {
        self.task(who).map(|task| Late {
            who: task.id,
            waits: task.wait.is_some(),
        })
    }

    // The first task, by order number, whose wake is the next tick.
    fn front_due(&self, tick: u64) -> Option<Late>
        requires { tick ≡ self.now.tick + 1 }
        ensures first { result ≡ option_map late_of (first_due self.now.tasks tick) }
        ensures sound { IsKern self.now }
    {
        match self.delays.first_due(tick) {
            Some(who) => self.late(who),
            None => None,
        }
    }

    // Ends the wait or delay of a task whose wake has come.
    fn time_out(&mut self, late: Late)
        requires live { Lives self.old late.who }
        requires since { self.old.next_since + 1 < 2 ^ 64 }
        ensures { self.new ≡ end_wait self.old late.who (late_answer late.waits) (late_errno late.waits) }
    {
        if late.waits {
            self.end_wait(late.who, ERROR, Some(Errno::ObjTimeout));
        } else {
            self.end_wait(late.who, OK, None);
        }
    }

    // Ends the waits and delays of all tasks whose wake is the next tick, in order of their order
    // numbers.
    fn wake_due(&mut self, tick: u64)
        requires since { self.old.next_since + 257 < 2 ^ 64 }
        requires next { tick ≡ self.old.tick + 1 }
        ensures state { self.new ≡ wake_due self.old tick }
        ensures done { first_due self.new.tasks tick ≡ None }
    {
        let _ = &self.tasks;
        while let Some(late) = self.front_due(tick) {
            self.time_out(late);
        }
    }

    /// A tick of the clock. The tick count rises by 1. If time slices are counted and the running
    /// task holds no scheduler lock, its time slice is one tick longer; if that ends the slice, the
    /// task goes after all others of its priority. Then the waits and delays whose wake has come
    /// end, in order of the tasks' order numbers: a wait with ERROR and `ObjTimeout`, a delay with
    /// 0.
    pub fn tick(&mut self)
        requires since { self.old.next_since < 2 ^ 63 }
        requires tick { self.old.tick < 2 ^ 63 }
        ensures { self.new ≡ tick self.old }
    {
        self.count_slice();
        let tick = self.tick + 1;
        self.wake_due(tick);
        self.tick = tick;
    }
}
