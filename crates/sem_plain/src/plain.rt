//! The binary and counting semaphores, and the calls on them.

ghost use Rattle.std.specs.Prelude.{◌≡◌, ◌<◌, ◌==◌, true, false, [], Some, None, IsSome, IfOk, IfErr, MatchOption};
ghost use Rattle.wind_base.specs.SemBits.{is_priority};
ghost use Rattle.id_table.specs.Rows.{object_of, IdsBelow};
ghost use Rattle.wind_core.specs.State.{Lives};
ghost use Rattle.wind_core.specs.Orders.{first_waiter};
ghost use Rattle.sem_plain.specs.State.{both, may_hold, sem_place, IsEarly};
ghost use Rattle.sem_plain.specs.Inside.{take_plan, give_plan};
ghost use Rattle.sem_plain.specs.Calls.{create, create_refusal, new_semaphore, take, take_deed, take_refusal, took, awaited, give, give_deed, give_refusal, flush, flush_refusal, delete, delete_refusal};

use crate::plans::{GivePlan, TakePlan};
use crate::semaphore::{Semaphore, count_down, count_up};
use id_table::sides::OBJECT;
use id_table::{Ident, Place, Table};
use std::alloc::Global;
use std::marker::Model;
use wind_base::limits::SEMAPHORES;
use wind_base::words::{ERROR, NO_WAIT, OK};
use wind_base::{Errno, NoMemory, SemKind, SemOptions};
use wind_core::{Kern, Took};

/// The binary and counting semaphores.
#[derive(Drop)]
pub struct Plain {
    table: Table<Semaphore>,
}

impl Model for Plain {
    ghost use Rattle.std.specs.Prelude.{◌≡◌, ℕ, List};
    ghost use Rattle.wind_base.specs.Limits.{most_semaphores};
    ghost use Rattle.sem_plain.specs.declared.semaphore.Semaphore.{Semaphore as Semaphore_lem};

    ghost Value = { List (ℕ × Semaphore_lem) };

    ghost view = { λ p. p.table.rows };

    ghost invariant = { λ p. p.table.room ≡ most_semaphores };
}

// The place at which tasks wait for the semaphore with this id.
fn place_of(id: Ident) -> Place
    ensures { result ≡ sem_place id }
{
    Place { side: OBJECT, id }
}

impl Plain {
    ghost use Rattle.sem_plain.specs.declared.semaphore.Semaphore.{Semaphore as Semaphore_lem};

    /// No semaphores, with room for 1,024. No other call takes memory.
    pub fn reserved(alloc: Global) -> Result<Plain, NoMemory>
        ensures { IfOk result (λ p. p ≡ []) }
    {
        Ok(Plain {
            table: Table::reserved(alloc, SEMAPHORES)?,
        })
    }

    /// The semaphores by id.
    pub fn table(&self) -> &Table<Semaphore>
        ensures { result.now.rows ≡ self.now }
    {
        &self.table
    }

    // The id with this number, if its semaphore is live.
    fn find(&self, number: u32) -> Option<Ident>
        ensures { MatchOption result (object_of self.now number ≡ None)
            (λ id. (id ≡ number) × IsSome (object_of self.now id)) }
    {
        self.table.find(number)
    }

    // The semaphore with this id.
    fn semaphore(&self, id: Ident) -> &Semaphore
        requires { IsSome (object_of self.now id) }
        ensures { object_of self.now id ≡ Some result.now }
    {
        match self.table.get(id) {
            Some(semaphore) => semaphore,
            None => unreachable!(),
        }
    }

    // Begins the task's wait for the semaphore with this id, in the order that the options say.
    fn wait(&self, kern: &mut Kern, who: Ident, id: Ident, timeout: u32)
        requires there { IsSome (object_of self.now id) }
        requires live { Lives kern.old who }
        requires timeout { 0 < timeout }
        requires early { IsEarly kern.old }
        ensures { (v : Semaphore_lem) → object_of self.now id ≡ Some v
            → both kern.new self.now ≡ awaited (both kern.old self.now) who id timeout v }
    {
        let fifo = !self.semaphore(id).options.is_priority();
        kern.pend(who, place_of(id), fifo, timeout);
    }

    // What a take with this timeout will do.
    fn plan_take(&self, id: u32, timeout: u32) -> TakePlan
        ensures { result ≡ take_plan id (take_deed timeout (object_of self.now id)) }
    {
        let Some(at) = self.find(id) else {
            return TakePlan::Declined(Errno::ObjIdError);
        };
        if self.semaphore(at).count > 0 {
            TakePlan::Taken(at)
        } else if timeout == NO_WAIT {
            TakePlan::Declined(Errno::ObjUnavailable)
        } else {
            TakePlan::Starved(at)
        }
    }

    // What a give will do.
    fn plan_give(&self, kern: &Kern, id: u32) -> GivePlan
        ensures { result
            ≡ give_plan id (give_deed (first_waiter kern.now.tasks (sem_place id)) (object_of self.now id)) }
    {
        let Some(at) = self.find(id) else {
            return GivePlan::Denied(Errno::ObjIdError);
        };
        if let Some(who) = kern.first_waiter(place_of(at)) {
            GivePlan::PassedOn(who)
        } else if self.semaphore(at).count == u32::MAX {
            GivePlan::Denied(Errno::CountOver)
        } else {
            GivePlan::Counted(at)
        }
    }

    /// Makes a semaphore with an initial count (VxWorks 5.4 Reference Manual, semBCreate and
    /// semCCreate).
    ///
    /// # Errors
    ///
    /// `TooMany` if 1,024 are live; otherwise `IdsSpent` if no id is left. Then nothing changes.
    pub fn create(
        &mut self,
        kern: &mut Kern,
        kind: SemKind,
        options: SemOptions,
        count: u32,
    ) -> Result<Ident, Errno>
        requires count { may_hold kind count ≡ true }
        requires ids { kern.old.lent ≡ false }
        requires below { IdsBelow kern.old.next_id self.old }
        ensures ok { IfOk result (λ id. (create_refusal (both kern.old self.old) ≡ None)
            × (id ≡ kern.old.next_id)) }
        ensures state { IfOk result (λ _. both kern.new self.new
            ≡ create (both kern.old self.old) (new_semaphore kind options count)) }
        ensures err { IfErr result (λ e. create_refusal (both kern.old self.old) ≡ Some e) }
        ensures same { IfErr result (λ _. both kern.new self.new ≡ both kern.old self.old) }
    {
        let semaphore = Semaphore {
            kind,
            options,
            count,
        };
        kern.create_in(&mut self.table, semaphore)
    }

    /// Takes the semaphore if its count is above 0. Otherwise the caller begins to wait for it, for
    /// `timeout` ticks, or without a time limit if `timeout` is `WAIT_FOREVER` (semTake). It waits
    /// by priority or in order of arrival, as the semaphore's options say.
    ///
    /// # Errors
    ///
    /// `ObjIdError` if there is no such semaphore; `ObjUnavailable` if its count is 0 and `timeout`
    /// is 0. Then nothing changes.
    pub fn take(
        &mut self,
        kern: &mut Kern,
        caller: Ident,
        id: u32,
        timeout: u32,
    ) -> Result<Took, Errno>
        requires live { Lives kern.old caller }
        requires early { IsEarly kern.old }
        ensures ok { IfOk result (λ t. (take_refusal (both kern.old self.old) id timeout ≡ None)
            × (t ≡ took (both kern.old self.old) id)) }
        ensures state { IfOk result (λ _. both kern.new self.new ≡ take (both kern.old self.old) caller id timeout) }
        ensures err { IfErr result (λ e. take_refusal (both kern.old self.old) id timeout ≡ Some e) }
        ensures same { IfErr result (λ _. both kern.new self.new ≡ both kern.old self.old) }
    {
        match self.plan_take(id, timeout) {
            TakePlan::Declined(e) => Err(e),
            TakePlan::Taken(at) => {
                count_down(self.table.object_mut(at));
                Ok(Took::Taken)
            }
            TakePlan::Starved(at) => {
                self.wait(kern, caller, at, timeout);
                Ok(Took::Pended)
            }
        }
    }

    /// Gives the semaphore (semGive). The first task that waits for it gets it, and its call ends
    /// with the result 0. If no task waits, a binary semaphore becomes full, and a counting
    /// semaphore's count rises by 1.
    ///
    /// # Errors
    ///
    /// `ObjIdError` if there is no such semaphore; `CountOver` if no task waits and the count is
    /// 4,294,967,295. Then nothing changes.
    pub fn give(&mut self, kern: &mut Kern, id: u32) -> Result<(), Errno>
        requires early { IsEarly kern.old }
        ensures ok { IfOk result (λ _. give_refusal (both kern.old self.old) id ≡ None) }
        ensures state { IfOk result (λ _. both kern.new self.new ≡ give (both kern.old self.old) id) }
        ensures err { IfErr result (λ e. give_refusal (both kern.old self.old) id ≡ Some e) }
        ensures same { IfErr result (λ _. both kern.new self.new ≡ both kern.old self.old) }
    {
        kern.facts();
        match self.plan_give(kern, id) {
            GivePlan::Denied(e) => Err(e),
            GivePlan::PassedOn(who) => {
                kern.end_wait(who, OK, None);
                Ok(())
            }
            GivePlan::Counted(at) => {
                count_up(self.table.object_mut(at));
                Ok(())
            }
        }
    }

    /// Ends the waits of all tasks for the semaphore, in their order, with the result 0 (semFlush).
    /// The count stays.
    ///
    /// # Errors
    ///
    /// `ObjIdError` if there is no such semaphore. Then nothing changes.
    pub fn flush(&mut self, kern: &mut Kern, id: u32) -> Result<(), Errno>
        requires early { IsEarly kern.old }
        ensures ok { IfOk result (λ _. flush_refusal (both kern.old self.old) id ≡ None) }
        ensures state { IfOk result (λ _. both kern.new self.new ≡ flush (both kern.old self.old) id) }
        ensures err { IfErr result (λ e. flush_refusal (both kern.old self.old) id ≡ Some e) }
        ensures same { IfErr result (λ _. both kern.new self.new ≡ both kern.old self.old) }
    {
        let Some(id) = self.find(id) else {
            return Err(Errno::ObjIdError);
        };
        kern.wake_all(place_of(id), OK, None);
        Ok(())
    }

    /// Deletes the semaphore (semDelete). The waits for it end, in their order, with ERROR and
    /// `ObjDeleted`.
    ///
    /// # Errors
    ///
    /// `ObjIdError` if there is no such semaphore. Then nothing changes.
    pub fn delete(&mut self, kern: &mut Kern, id: u32) -> Result<(), Errno>
        requires early { IsEarly kern.old }
        ensures ok { IfOk result (λ _. delete_refusal (both kern.old self.old) id ≡ None) }
        ensures state { IfOk result (λ _. both kern.new self.new ≡ delete (both kern.old self.old) id) }
        ensures err { IfErr result (λ e. delete_refusal (both kern.old self.old) id ≡ Some e) }
        ensures same { IfErr result (λ _. both kern.new self.new ≡ both kern.old self.old) }
    {
        let Some(id) = self.find(id) else {
            return Err(Errno::ObjIdError);
        };
        kern.wake_all(place_of(id), ERROR, Some(Errno::ObjDeleted));
        self.table.remove(id);
        Ok(())
    }
}
