//! The owner of a mutex gives it.

ghost use Rattle.std.specs.Prelude.{◌≡◌, ◌<◌, ◌^◌, Some, None, IsSome, IfOk, IfErr};
ghost use Rattle.id_table.specs.Rows.{object_of};
ghost use Rattle.wind_core.specs.State.{Lives};
ghost use Rattle.inheritance.specs.Mutexes.{both};
ghost use Rattle.sem_mutex.specs.Kept.{KeepsMutexes, FewSinces, FewSafe};
ghost use Rattle.sem_mutex.specs.Calls.{passed_on, given_once, given_last, give, give_deed, give_refusal};
ghost use Rattle.sem_mutex.specs.Inside.{give_plan as give_plan_lem};

use crate::mutexes::Mutexes;
use crate::owners::{ease, free, let_go, take_depth};
use crate::plans::{GivePlan, give_plan};
use id_table::sides::OBJECT;
use id_table::{Ident, Place};
use wind_base::Errno;
use wind_base::words::OK;
use wind_core::Kern;

impl Mutexes {
    // Makes the first waiter the owner and ends its wait. If no task waits, the mutex becomes free.
    fn pass_on(&mut self, k: &mut Kern, id: Ident)
        requires there { IsSome (object_of self.old.rows id) }
        requires kept { KeepsMutexes (both k.old self.old) }
        requires since { FewSinces k.old }
        requires safe { FewSafe k.old }
        ensures { both k.new self.new ≡ passed_on (both k.old self.old) id (object_of self.old.rows id) }
    {
        k.facts();
        self.facts();
        let Some(next) = k.first_waiter(Place { side: OBJECT, id }) else {
            free(self.table.object_mut(id));
            return;
        };
        self.hand(k, next, id);
        k.end_wait(next, OK, None);
    }

    // A give after which the owner still owns it.
    fn give_once(&mut self, k: &mut Kern, who: Ident, id: Ident)
        requires live { Lives k.old who }
        requires there { IsSome (object_of self.old.rows id) }
        requires since { k.old.next_since < 2 ^ 63 }
        ensures { both k.new self.new ≡ given_once (both k.old self.old) who id (object_of self.old.rows id) }
    {
        ease(k, who, self.mutex(id), 1);
        take_depth(self.table.object_mut(id));
    }

    // The owner's last give: the mutex is passed on.
    fn give_last(&mut self, k: &mut Kern, who: Ident, id: Ident)
        requires live { Lives k.old who }
        requires there { IsSome (object_of self.old.rows id) }
        requires kept { KeepsMutexes (both k.old self.old) }
        requires since { FewSinces k.old }
        requires safe { FewSafe k.old }
        ensures { both k.new self.new ≡ given_last (both k.old self.old) who id (object_of self.old.rows id) }
    {
        k.facts();
        self.pass_on(k, id);
        let_go(k, who, self.mutex(id), self.profile);
        ease(k, who, self.mutex(id), 1);
    }

    // What a give will do.
    fn plan_give(&self, caller: Ident, id: u32) -> GivePlan
        ensures { result ≡ give_plan_lem id (give_deed caller (object_of self.now.rows id)) }
    {
        let Some(at) = self.find(id) else {
            return GivePlan::Denied(Errno::ObjIdError);
        };
        give_plan(self.mutex(at), at, caller)
    }

    /// Gives the mutex once, on behalf of its owner (semGive). After the last give the first
    /// waiting task owns it, or it is free; and under profile 1, if it is inversion-safe and the
    /// caller owns no other such mutex, the caller gets its normal priority back. Last of all, if
    /// the mutex is delete-safe, a safe section of the caller ends.
    ///
    /// # Errors
    ///
    /// `ObjIdError` if there is no such mutex; `InvalidOperation` if the caller isn't its owner.
    /// Then nothing changes.
    pub fn give(&mut self, k: &mut Kern, caller: Ident, id: u32) -> Result<(), Errno>
        requires live { Lives k.old caller }
        requires kept { KeepsMutexes (both k.old self.old) }
        requires since { FewSinces k.old }
        requires safe { FewSafe k.old }
        ensures ok { IfOk result (λ _. (give_refusal caller (object_of self.old.rows id) ≡ None)
            × (both k.new self.new ≡ give (both k.old self.old) caller id)) }
        ensures err { IfErr result (λ e. (give_refusal caller (object_of self.old.rows id) ≡ Some e)
            × (both k.new self.new ≡ both k.old self.old)) }
        ensures kept { KeepsMutexes (both k.new self.new) }
    {
        k.facts();
        self.facts();
        match self.plan_give(caller, id) {
            GivePlan::Denied(e) => Err(e),
            GivePlan::Lowered(at) => {
                self.give_once(k, caller, at);
                Ok(())
            }
            GivePlan::GivenUp(at) => {
                self.give_last(k, caller, at);
                Ok(())
            }
        }
    }
}
