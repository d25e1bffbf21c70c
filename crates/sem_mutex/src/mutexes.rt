//! The mutexes.

ghost use Rattle.std.specs.Prelude.{◌≡◌, ◌<◌, ◌^◌, true, false, [], Some, None, IsSome, IfOk, IfErr, is_some};
ghost use Rattle.wind_base.specs.SemBits.{is_priority, is_inversion_safe};
ghost use Rattle.id_table.specs.Rows.{object_of};
ghost use Rattle.wind_core.specs.State.{IsKern, Lives};
ghost use Rattle.wind_base.specs.declared.errno.Errno.TheVariants.{ObjIdError};
ghost use Rattle.wind_base.specs.declared.profile.Profile.TheVariants.{One};
ghost use Rattle.inheritance.specs.Mutexes.{both, owner_in, AreMutexes};
ghost use Rattle.inheritance.specs.Laws.{OwnersUrgentBut};
ghost use Rattle.sem_mutex.specs.Kept.{KeepsMutexes, FewSinces};
ghost use Rattle.sem_mutex.specs.Calls.{live_mutex, priority_set, raised_at_once};
ghost use Rattle.sem_mutex.specs.Making.{create, create_refusal, new_mutex};

use crate::owners::{follow, pri_after};
use id_table::{Ident, Table};
use inheritance::{Mutex, inherit};
use std::alloc::Global;
use std::marker::Model;
use wind_base::limits::MUTEXES;
use wind_base::{Errno, NoMemory, Pri, Profile, SemOptions};
use wind_core::Kern;

/// The live mutexes, by id, and the rule by which their owners inherit priorities.
#[derive(Drop)]
pub struct Mutexes {
    pub(crate) profile: Profile,
    pub(crate) table: Table<Mutex>,
}

impl Model for Mutexes {
    ghost use Rattle.std.specs.Prelude.{◌≡◌};
    ghost use Rattle.wind_base.specs.Limits.{most_mutexes};
    ghost use Rattle.inheritance.specs.Mutexes.{LiveMutexes};

    ghost Value = { LiveMutexes };

    ghost view = { λ m. record { profile = m.profile; rows = m.table.rows } };

    ghost invariant = { λ m. m.table.room ≡ most_mutexes };
}

impl Mutexes {
    /// No mutexes, with room for 1,024, under a rule of inheritance. No other call takes memory.
    pub fn reserved(alloc: Global, profile: Profile) -> Result<Mutexes, NoMemory>
        ensures { IfOk result (λ m. m ≡ record { profile = profile; rows = [] }) }
    {
        Ok(Mutexes {
            profile,
            table: Table::reserved(alloc, MUTEXES)?,
        })
    }

    /// Does nothing. Its contract states the invariant of the list of mutexes.
    pub fn facts(&self)
        ensures { AreMutexes self.now.rows }
    {
        self.table.facts();
    }

    /// The mutexes by id.
    pub fn table(&self) -> &Table<Mutex>
        ensures { result.now.rows ≡ self.now.rows }
    {
        &self.table
    }

    // The mutex with this id, which must exist.
    pub(crate) fn mutex(&self, id: Ident) -> &Mutex
        requires { IsSome (object_of self.now.rows id) }
        ensures { object_of self.now.rows id ≡ Some result.now }
    {
        match self.table.get(id) {
            Some(m) => m,
            None => unreachable!(),
        }
    }

    // The id with this number, if its mutex is live.
    pub(crate) fn find(&self, id: u32) -> Option<Ident>
        ensures { result ≡ live_mutex self.now.rows id }
    {
        self.table.find(id)
    }

    // The same, with the invariants of the kernel and of the list of mutexes. `ObjIdError` if there
    // is no such mutex.
    pub(crate) fn live(&self, k: &Kern, id: u32) -> Result<Ident, Errno>
        ensures ok { IfOk result (λ i. Some i ≡ live_mutex self.now.rows id) }
        ensures err { IfErr result (λ e. (e ≡ ObjIdError) × (live_mutex self.now.rows id ≡ None)) }
        ensures kern { IsKern k.now }
        ensures mutexes { AreMutexes self.now.rows }
    {
        k.facts();
        self.facts();
        self.find(id).ok_or(Errno::ObjIdError)
    }

    // The owner of the mutex with this id, live or ended. None if it is free.
    pub(crate) fn owner_by(&self, id: Ident) -> Option<Ident>
        ensures { result ≡ owner_in (object_of self.now.rows id) }
    {
        self.table.get(id)?.owner
    }

    /// Makes a mutex without an owner (semMCreate). Options with inheritance must also have waiters
    /// by priority, as all options from `SemOptions::read` for a mutex do.
    ///
    /// # Errors
    ///
    /// `TooMany` if 1,024 are live; otherwise `IdsSpent` if no id is left. Then nothing changes.
    pub fn create(&mut self, k: &mut Kern, options: SemOptions) -> Result<Ident, Errno>
        requires options { is_inversion_safe options ≡ true → is_priority options ≡ true }
        requires ids { k.old.lent ≡ false }
        requires kept { KeepsMutexes (both k.old self.old) }
        ensures ok { IfOk result (λ id. (create_refusal (both k.old self.old) ≡ None) × (id ≡ k.old.next_id)
            × (both k.new self.new ≡ create (both k.old self.old) (new_mutex options))) }
        ensures err { IfErr result (λ e. (create_refusal (both k.old self.old) ≡ Some e)
            × (both k.new self.new ≡ both k.old self.old)) }
        ensures kept { KeepsMutexes (both k.new self.new) }
    {
        let mutex = Mutex {
            by_priority: options.is_priority(),
            delete_safe: options.is_delete_safe(),
            inversion_safe: options.is_inversion_safe(),
            owner: None,
            depth: 0,
        };
        k.create_in(&mut self.table, mutex)
    }

    /// Whether this number is the id of a live mutex.
    pub fn is_live(&self, id: u32) -> bool
        ensures { result ≡ is_some (object_of self.now.rows id) }
    {
        self.find(id).is_some()
    }

    /// The number of the task that owns the mutex, live or ended. None if there is no such mutex,
    /// or if it is free.
    pub fn owner(&self, id: u32) -> Option<u32>
        ensures { result ≡ owner_in (object_of self.now.rows id) }
    {
        let id = self.find(id)?;
        let owner = self.owner_by(id)?;
        Some(owner.get())
    }

    // Under profile 1 the owner that the task waits for inherits its priority at once.
    pub(crate) fn inherit_at_once(&self, k: &mut Kern, who: Ident)
        requires live { Lives k.old who }
        requires urgent { self.now.profile ≡ One → OwnersUrgentBut who self.now.rows k.old.tasks }
        requires since { k.old.next_since < 2 ^ 63 }
        ensures { both k.new self.now ≡ raised_at_once (both k.old self.now) }
    {
        match self.profile {
            Profile::One => inherit(k, &self.table, who),
            Profile::Two => {}
        }
    }

    /// Sets the task's normal priority. Under profile 1 the task's priority follows at once: if the
    /// task owns no inversion-safe mutex, it becomes the normal one; otherwise the task gets the
    /// more urgent of that and its current priority. The owner that it waits for inherits the
    /// result. Under profile 2 priorities follow when they are settled.
    pub fn priority_set(&mut self, k: &mut Kern, who: Ident, pri: Pri)
        requires live { Lives k.old who }
        requires kept { KeepsMutexes (both k.old self.old) }
        requires since { FewSinces k.old }
        ensures state { both k.new self.new ≡ priority_set (both k.old self.old) who pri }
        ensures kept { KeepsMutexes (both k.new self.new) }
    {
        k.facts();
        let changed = pri_after(k, who, pri);
        k.set_normal(who, pri);
        follow(k, who, changed, self.profile);
        self.inherit_at_once(k, who);
    }
}
