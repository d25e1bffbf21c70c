//! Suspension and priorities.

ghost use Rattle.std.specs.Prelude.{◌≡◌, ◌<◌, ◌+◌, ◌^◌};
ghost use Rattle.wind_core.specs.State.{Lives, task_of};
ghost use Rattle.wind_core.specs.Moves.{suspend, resume, reset, change_pri, is_suspended as is_suspended_lem, has_pri as has_pri_lem};

use crate::kern::Kern;
use crate::notes::normal_too;
use crate::queues::{mend, mend_ready, mend_waits};
use crate::tasks::{renew, set_pri, settle, suspend_task, take_marks, take_suspension};
use id_table::Ident;
use wind_base::Pri;

impl Kern {
    /// Suspends the task, whatever else it waits for, and ends its time slice.
    pub fn suspend(&mut self, who: Ident)
        requires { Lives self.old who }
        ensures { self.new ≡ suspend self.old who }
    {
        suspend_task(self.tasks.object_mut(who));
        self.ready.take(who);
    }

    // Whether the task with this id is suspended.
    fn is_suspended(&self, who: Ident) -> bool
        ensures { result ≡ is_suspended_lem (task_of self.now.tasks who) }
    {
        match self.task(who) {
            Some(task) => task.suspended,
            None => false,
        }
    }

    /// Ends the task's suspension. If the task is then ready, it goes after all others of its
    /// priority. If the task isn't suspended, nothing changes.
    pub fn resume(&mut self, who: Ident)
        requires live { Lives self.old who }
        requires since { self.old.next_since + 1 < 2 ^ 64 }
        ensures { self.new ≡ resume self.old who }
    {
        if !self.is_suspended(who) {
            return;
        }
        let task = self.tasks.object_mut(who);
        take_suspension(task);
        settle(task, &mut self.next_since);
        mend_ready(&mut self.ready, task);
    }

    /// Clears the task's suspension, scheduler locks, interrupt lock and mark of a repeated call.
    /// The task gets a new order number, and if it is ready, it goes after all others of its
    /// priority.
    pub fn reset(&mut self, who: Ident)
        requires live { Lives self.old who }
        requires since { self.old.next_since + 1 < 2 ^ 64 }
        ensures { self.new ≡ reset self.old who }
    {
        let task = self.tasks.object_mut(who);
        take_marks(task);
        renew(task, &mut self.next_since);
        mend(&mut self.waits, &mut self.ready, &mut self.delays, task);
    }

    // Whether the task with this id has this priority.
    fn has_pri(&self, who: Ident, pri: Pri) -> bool
        ensures { result ≡ has_pri_lem pri (task_of self.now.tasks who) }
    {
        match self.task(who) {
            Some(task) => task.pri == pri,
            None => false,
        }
    }

    /// Sets the task's priority. If that changes it and the task is ready, the task goes after all
    /// others of its new priority.
    pub fn change_pri(&mut self, who: Ident, pri: Pri)
        requires live { Lives self.old who }
        requires since { self.old.next_since + 1 < 2 ^ 64 }
        ensures { self.new ≡ change_pri self.old who pri }
    {
        if self.has_pri(who, pri) {
            return;
        }
        let task = self.tasks.object_mut(who);
        set_pri(task, pri);
        settle(task, &mut self.next_since);
        self.all_normal = normal_too(self.all_normal, task);
        mend_waits(&mut self.waits, task);
        mend_ready(&mut self.ready, task);
    }
}
