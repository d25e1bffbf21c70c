//! Waits and delays.

ghost use Rattle.std.specs.Prelude.{◌≡◌, ◌<◌, ◌+◌, ◌^◌};
ghost use Rattle.std.specs.Option.{option_map};
ghost use Rattle.wind_core.specs.State.{Lives, IsKern, task_id};
ghost use Rattle.wind_core.specs.Orders.{first_waiter as first_waiter_lem};
ghost use Rattle.wind_core.specs.Moves.{pend, delay, release, end_wait, wake_all};
ghost use Rattle.wind_core.specs.Releases.{release_all};

use crate::kern::Kern;
use crate::queues::mend;
use crate::tasks::{answer_wait, begin_delay, begin_wait, end, renew, settle};
use id_table::{Ident, Place};
use wind_base::Errno;

impl Kern {
    /// Begins the task's wait at a place. It ends after `timeout` ticks at the latest, unless
    /// `timeout` is `WAIT_FOREVER`. With `fifo`, the task waits in order of arrival, otherwise by
    /// priority, after its equals. A wait for the deletion of a task or for the console has no
    /// timeout, and is by priority.
    pub fn pend(&mut self, who: Ident, place: Place, fifo: bool, timeout: u32)
        requires live { Lives self.old who }
        requires timeout { 0 < timeout }
        requires since { self.old.next_since + 1 < 2 ^ 64 }
        requires tick { self.old.tick < 2 ^ 63 }
        ensures { self.new ≡ pend self.old who place fifo timeout }
    {
        let tick = self.tick;
        let task = self.tasks.object_mut(who);
        begin_wait(task, place, fifo, tick, timeout);
        renew(task, &mut self.next_since);
        mend(&mut self.waits, &mut self.ready, &mut self.delays, task);
    }

    /// Delays the task for `ticks` ticks. With 0, it only goes after all others of its priority.
    pub fn delay(&mut self, who: Ident, ticks: u32)
        requires live { Lives self.old who }
        requires since { self.old.next_since + 1 < 2 ^ 64 }
        requires tick { self.old.tick < 2 ^ 63 }
        ensures { self.new ≡ delay self.old who ticks }
    {
        let tick = self.tick;
        let task = self.tasks.object_mut(who);
        begin_delay(task, tick, ticks);
        renew(task, &mut self.next_since);
        mend(&mut self.waits, &mut self.ready, &mut self.delays, task);
    }

    /// Ends the task's wait or delay. If the task is then ready, it goes after all others of its
    /// priority.
    pub fn release(&mut self, who: Ident)
        requires live { Lives self.old who }
        requires since { self.old.next_since + 1 < 2 ^ 64 }
        ensures { self.new ≡ release self.old who }
    {
        let task = self.tasks.object_mut(who);
        end(task);
        settle(task, &mut self.next_since);
        mend(&mut self.waits, &mut self.ready, &mut self.delays, task);
    }

    /// Ends the task's wait or delay, and sets the result of its call in r3 and, if `errno` is
    /// given, its error number. If the task is then ready, it goes after all others of its
    /// priority.
    pub fn end_wait(&mut self, who: Ident, answer: u32, errno: Option<Errno>)
        requires live { Lives self.old who }
        requires since { self.old.next_since + 1 < 2 ^ 64 }
        ensures { self.new ≡ end_wait self.old who answer errno }
    {
        let task = self.tasks.object_mut(who);
        answer_wait(task, answer, errno);
        settle(task, &mut self.next_since);
        mend(&mut self.waits, &mut self.ready, &mut self.delays, task);
    }

    /// The first task that waits at a place. None if no task waits there.
    pub fn first_waiter(&self, place: Place) -> Option<Ident>
        ensures { result ≡ option_map task_id (first_waiter_lem self.now.tasks place) }
    {
        self.waits.first(place)
    }

    // The same, with the kernel's invariant.
    fn front_waiter(&self, place: &Place) -> Option<Ident>
        ensures first { result ≡ option_map task_id (first_waiter_lem self.now.tasks place.now) }
        ensures sound { IsKern self.now }
    {
        // reading the table makes the invariant known
        let _ = &self.tasks;
        self.waits.first(*place)
    }

    /// Ends the waits of all tasks at a place, in their order there, with the same result.
    pub fn wake_all(&mut self, place: Place, answer: u32, errno: Option<Errno>)
        requires { self.old.next_since < 2 ^ 63 }
        ensures { self.new ≡ wake_all self.old place answer errno }
    {
        let _ = &self.tasks;
        while let Some(who) = self.front_waiter(&place) {
            self.end_wait(who, answer, errno);
        }
    }

    /// Ends the waits of all tasks at a place, in their order there, without a result.
    pub fn release_all(&mut self, place: Place)
        requires { self.old.next_since < 2 ^ 63 }
        ensures { self.new ≡ release_all self.old place }
    {
        let _ = &self.tasks;
        while let Some(who) = self.front_waiter(&place) {
            self.release(who);
        }
    }
}
