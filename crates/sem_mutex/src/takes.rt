//! A task takes a mutex, or waits for it.

ghost use Rattle.std.specs.Prelude.{◌≡◌, ◌<◌, ◌+◌, ◌^◌, Some, None, IsSome, IfOk, IfErr};
ghost use Rattle.id_table.specs.Rows.{object_of};
ghost use Rattle.wind_core.specs.State.{Lives, task_of};
ghost use Rattle.task_safety.specs.Safety.{safe_of};
ghost use Rattle.inheritance.specs.Mutexes.{both};
ghost use Rattle.sem_mutex.specs.Kept.{KeepsMutexes, FewSinces, IsEarlyFor};
ghost use Rattle.sem_mutex.specs.Calls.{held_of, handed, deepened, awaited, take, take_deed, take_refusal, took};
ghost use Rattle.sem_mutex.specs.Inside.{take_plan as take_plan_lem};

use crate::mutexes::Mutexes;
use crate::owners::{add_depth, adopt, guard, own};
use crate::plans::{TakePlan, take_plan};
use id_table::sides::OBJECT;
use id_table::{Ident, Place};
use wind_base::Errno;
use wind_core::{Kern, Took};

impl Mutexes {
    // Makes the task the owner.
    pub(crate) fn hand(&mut self, k: &mut Kern, who: Ident, id: Ident)
        requires live { Lives k.old who }
        requires there { IsSome (object_of self.old.rows id) }
        requires held { held_of (task_of k.old.tasks who) + 1 < 2 ^ 64 }
        requires safe { safe_of (task_of k.old.tasks who) + 1 < 2 ^ 64 }
        ensures { both k.new self.new ≡ handed (both k.old self.old) who id (object_of self.old.rows id) }
    {
        adopt(k, who, self.mutex(id));
        own(self.table.object_mut(id), who);
    }

    // The owner takes it once more.
    fn deepen(&mut self, k: &mut Kern, who: Ident, id: Ident)
        requires live { Lives k.old who }
        requires there { IsSome (object_of self.old.rows id) }
        requires early { IsEarlyFor (both k.old self.old) who id }
        ensures { both k.new self.new ≡ deepened (both k.old self.old) who id (object_of self.old.rows id) }
    {
        guard(k, who, self.mutex(id));
        add_depth(self.table.object_mut(id));
    }

    // Begins the task's wait for it.
    fn await_mutex(&self, k: &mut Kern, who: Ident, id: Ident, timeout: u32)
        requires live { Lives k.old who }
        requires there { IsSome (object_of self.now.rows id) }
        requires timeout { 0 < timeout }
        requires since { FewSinces k.old }
        requires ticks { k.old.tick < 2 ^ 61 }
        ensures { both k.new self.now ≡ awaited (both k.old self.now) who id timeout (object_of self.now.rows id) }
    {
        let fifo = !self.mutex(id).by_priority;
        k.pend(who, Place { side: OBJECT, id }, fifo, timeout);
    }

    // What a take with this timeout will do.
    fn plan_take(&self, caller: Ident, id: u32, timeout: u32) -> TakePlan
        ensures { result ≡ take_plan_lem id (take_deed caller timeout (object_of self.now.rows id)) }
    {
        let Some(at) = self.find(id) else {
            return TakePlan::Declined(Errno::ObjIdError);
        };
        take_plan(self.mutex(at), at, caller, timeout)
    }

    /// Takes the mutex for the caller if it is free, or once more if the caller owns it (semTake).
    /// Otherwise the caller begins to wait for it, for `timeout` ticks, or without a time limit if
    /// `timeout` is `WAIT_FOREVER`; and the owner of an inversion-safe mutex inherits the caller's
    /// priority, under profile 1 at once.
    ///
    /// # Errors
    ///
    /// `ObjIdError` if there is no such mutex; `ObjUnavailable` if another task owns it and
    /// `timeout` is 0. Then nothing changes.
    pub fn take(
        &mut self,
        k: &mut Kern,
        caller: Ident,
        id: u32,
        timeout: u32,
    ) -> Result<Took, Errno>
        requires live { Lives k.old caller }
        requires kept { KeepsMutexes (both k.old self.old) }
        requires early { IsEarlyFor (both k.old self.old) caller id }
        ensures ok { IfOk result (λ t. (take_refusal caller timeout (object_of self.old.rows id) ≡ None)
            × (t ≡ took caller (object_of self.old.rows id))
            × (both k.new self.new ≡ take (both k.old self.old) caller id timeout)) }
        ensures err { IfErr result (λ e. (take_refusal caller timeout (object_of self.old.rows id) ≡ Some e)
            × (both k.new self.new ≡ both k.old self.old)) }
        ensures kept { KeepsMutexes (both k.new self.new) }
    {
        k.facts();
        self.facts();
        match self.plan_take(caller, id, timeout) {
            TakePlan::Declined(e) => Err(e),
            TakePlan::Taken(at) => {
                self.hand(k, caller, at);
                Ok(Took::Taken)
            }
            TakePlan::Retaken(at) => {
                self.deepen(k, caller, at);
                Ok(Took::Taken)
            }
            TakePlan::Starved(at) => {
                self.await_mutex(k, caller, at, timeout);
                self.inherit_at_once(k, caller);
                Ok(Took::Pended)
            }
        }
    }
}
