//! The watchdogs, and the interrupt level.

ghost use Rattle.std.specs.Prelude.{◌≡◌, ◌<◌, ◌≤◌, ◌+◌, ◌^◌, ◌↔◌, false, length, None, Some, IsSome, is_some, IfOk, IfErr, IsOk, MatchOption, option_copied};
ghost use Rattle.std.specs.Borrow.{sem};
ghost use Rattle.std.specs.List.{All};
ghost use Rattle.std.specs.Option.{option_copied_mut};
ghost use Rattle.wind_base.specs.Limits.{frame_bytes, most_watchdogs};
ghost use Rattle.wind_base.specs.declared.board_kind.BoardKind.TheVariants.{One};
ghost use Rattle.wind_base.specs.declared.errno.Errno.TheVariants.{ObjIdError};
ghost use Rattle.id_table.specs.Rows.{IdsBelow, added, objects};
ghost use Rattle.id_table.specs.Source.{one_given};
ghost use Rattle.isr_watch.specs.State.{IsWatch, no_watch, watchdog_of};
ghost use Rattle.isr_watch.specs.Calls.{new_watchdog as new_watchdog_lem, create_refusal, created, delete, start, cancel, due, begun, finish, routine_return, with_link};

use crate::listing::{list_routines, list_since, next_level};
use crate::watchdog::{Routine, Watchdog, begin, new_watchdog, stop};
use id_table::{IdSource, Ident, Table};
use std::alloc::Global;
use std::collections::VecDeque;
use std::marker::Model;
use wind_base::limits::WATCHDOGS;
use wind_base::{BoardKind, Errno, Gate, NoMemory, Regs};
use wind_core::Kern;

/// The watchdogs, the routines listed by a tick or a device's interrupt, the registers of the active
/// routine, and the address to which a routine returns.
#[derive(Drop)]
pub struct Watch {
    watchdogs: Table<Watchdog>,
    // no watchdog is due before this tick
    soonest: u64,
    level: Option<Regs>,
    listed: VecDeque<Routine>,
    next_start: u64,
    link: u32,
}

impl Model for Watch {
    ghost use Rattle.std.specs.Prelude.{◌≤◌};
    ghost use Rattle.std.specs.VecDeque.{deque_capacity};
    ghost use Rattle.wind_base.specs.Limits.{most_watchdogs};
    ghost use Rattle.isr_watch.specs.State.{WatchState};
    ghost use Rattle.isr_watch.specs.Inside.{watch_state, IsLevel};

    ghost Value = { WatchState };

    ghost view = { λ w. watch_state w.watchdogs.rows w.level w.listed.items w.next_start w.link };

    ghost invariant = { λ w. IsLevel w.watchdogs w.level w.listed.items w.soonest × (most_watchdogs ≤ deque_capacity w.listed) };
}

// Adds a watchdog under the next id.
fn add_watchdog(watchdogs: &mut Table<Watchdog>, ids: &mut IdSource) -> Result<Ident, Errno>
    requires home { ids.old.lent ≡ false }
    requires below { IdsBelow ids.old.next watchdogs.old.rows }
    requires room { watchdogs.old.room ≡ 256 }
    ensures ok { IfOk result (λ id. (create_refusal (length watchdogs.old.rows) ids.old.next ≡ None)
        × (id ≡ ids.old.next)
        × (ids.new ≡ one_given ids.old)
        × (watchdogs.new ≡ added watchdogs.old ids.old.next (new_watchdog_lem ids.old.next))) }
    ensures err { IfErr result (λ e. (create_refusal (length watchdogs.old.rows) ids.old.next ≡ Some e)
        × (ids.new ≡ ids.old) × (watchdogs.new ≡ watchdogs.old)) }
{
    let id = watchdogs.next_id(ids)?;
    let Ok(id) = watchdogs.add(ids, new_watchdog(id)) else {
        unreachable!()
    };
    Ok(id)
}

impl Watch {
    ghost use Rattle.isr_watch.specs.Lends.{lends_regs, lends_found};

    /// No watchdogs, with room for 256. Routines return to board 1's gate. No other call takes
    /// memory.
    pub fn reserved(alloc: Global) -> Result<Watch, NoMemory>
        ensures { IfOk result (λ w. w ≡ no_watch (routine_return One)) }
    {
        let watchdogs = Table::reserved(alloc, WATCHDOGS)?;
        let listed = VecDeque::with_capacity(alloc, WATCHDOGS as usize)?;
        Ok(Watch {
            watchdogs,
            soonest: u64::MAX,
            level: None,
            listed,
            next_start: 0,
            link: Gate::InterruptReturn.address(BoardKind::One.rules().gates_start),
        })
    }

    /// Sets the address to which the routines return that begin from now on.
    pub fn set_return(&mut self, link: u32)
        ensures { self.new ≡ with_link self.old link }
    {
        self.link = link;
    }

    /// Does nothing. Its contract states the watchdogs' invariant.
    pub fn facts(&self)
        ensures { IsWatch self.now }
    {
        self.watchdogs.facts();
    }

    /// The number of starts so far. A caller can test that it is far from overflow.
    pub fn starts(&self) -> u64
        ensures { result ≡ self.now.next_start }
    {
        self.next_start
    }

    /// The watchdogs by id.
    pub fn watchdogs(&self) -> &Table<Watchdog>
        ensures { objects result.now.rows ≡ self.now.watchdogs }
    {
        &self.watchdogs
    }

    /// Makes a watchdog that isn't running (VxWorks 5.4 Reference Manual, wdCreate).
    ///
    /// # Errors
    ///
    /// `TooMany` if 256 watchdogs are live; otherwise `IdsSpent` if no id is left. Then nothing
    /// changes.
    pub fn create(&mut self, kern: &mut Kern) -> Result<Ident, Errno>
        requires ids { kern.old.lent ≡ false }
        requires below { All (λ w. w.id < kern.old.next_id) self.old.watchdogs }
        ensures ok { IfOk result (λ id. (create_refusal (length self.old.watchdogs) kern.old.next_id ≡ None)
            × (id ≡ kern.old.next_id) × (self.new ≡ created self.old id)
            × (kern.new ≡ record kern.old { next_id = id + 1 })) }
        ensures err { IfErr result (λ e. (create_refusal (length self.old.watchdogs) kern.old.next_id ≡ Some e)
            × (self.new ≡ self.old) × (kern.new ≡ kern.old)) }
    {
        let mut ids = kern.lend_ids();
        let made = add_watchdog(&mut self.watchdogs, &mut ids);
        kern.put_ids(ids);
        made
    }

    // The id with this number, if its watchdog is live.
    fn find(&self, number: u32) -> Option<Ident>
        ensures { MatchOption result (watchdog_of self.now.watchdogs number ≡ None)
            (λ id. (id ≡ number) × IsSome (watchdog_of self.now.watchdogs id)) }
    {
        self.watchdogs.find(number)
    }

    /// Starts a watchdog, or restarts it if it is running (VxWorks 5.4 Reference Manual, wdStart).
    /// It is due `delay` ticks after `tick`, or one tick after if `delay` is 0, and goes last in
    /// the order of start.
    ///
    /// # Errors
    ///
    /// `ObjIdError` if there is no such watchdog. Then nothing changes.
    pub fn start(&mut self, id: u32, tick: u64, delay: u32, routine: Routine) -> Result<(), Errno>
        requires tick { tick < 2 ^ 63 }
        requires next { self.old.next_start < 2 ^ 63 }
        ensures live { IsOk result ↔ IsSome (watchdog_of self.old.watchdogs id) }
        ensures err { IfErr result (λ e. e ≡ ObjIdError) }
        ensures state { self.new ≡ start self.old id tick delay routine }
    {
        let Some(at) = self.find(id) else {
            return Err(Errno::ObjIdError);
        };
        self.watchdogs.facts();
        let due = begin(
            self.watchdogs.object_mut(at),
            tick,
            delay,
            routine,
            self.next_start,
        );
        self.soonest = self.soonest.min(due);
        self.next_start += 1;
        Ok(())
    }

    /// Stops a watchdog (VxWorks 5.4 Reference Manual, wdCancel). If its routine is listed, that
    /// stays listed.
    ///
    /// # Errors
    ///
    /// `ObjIdError` if there is no such watchdog. Then nothing changes.
    pub fn cancel(&mut self, id: u32) -> Result<(), Errno>
        ensures live { IsOk result ↔ IsSome (watchdog_of self.old.watchdogs id) }
        ensures err { IfErr result (λ e. e ≡ ObjIdError) }
        ensures state { self.new ≡ cancel self.old id }
    {
        let Some(at) = self.find(id) else {
            return Err(Errno::ObjIdError);
        };
        self.watchdogs.facts();
        stop(self.watchdogs.object_mut(at));
        Ok(())
    }

    /// Deletes a watchdog, which stops it (VxWorks 5.4 Reference Manual, wdDelete). If its routine
    /// is listed, that stays listed.
    ///
    /// # Errors
    ///
    /// `ObjIdError` if there is no such watchdog. Then nothing changes.
    pub fn delete(&mut self, id: u32) -> Result<(), Errno>
        ensures live { IsOk result ↔ IsSome (watchdog_of self.old.watchdogs id) }
        ensures err { IfErr result (λ e. e ≡ ObjIdError) }
        ensures state { self.new ≡ delete self.old id }
    {
        let Some(at) = self.find(id) else {
            return Err(Errno::ObjIdError);
        };
        self.watchdogs.remove(at);
        Ok(())
    }

    /// Whether a routine is active.
    pub fn active(&self) -> bool
        ensures { result ≡ is_some self.now.level }
    {
        self.level.is_some()
    }

    /// The registers of the active routine. None if no routine is active.
    pub fn regs(&self) -> Option<&Regs>
        ensures { option_copied result ≡ self.now.level }
    {
        self.level.as_ref()
    }

    // A mutable reference to the registers of the active routine, which must exist.
    fn level_mut(&mut self) -> &mut Regs
        requires { IsSome self.old.level }
        ensures* writes_back { sem 𝓛 (lends_regs self.entry result) }
        ensures value { self.old.level ≡ Some result.now }
    {
        match &mut self.level {
            Some(regs) => regs,
            None => unreachable!(),
        }
    }

    /// A mutable reference to the registers of the active routine. None if no routine is active.
    pub fn regs_mut(&mut self) -> Option<&mut Regs>
        ensures* writes_back { sem 𝓛 (lends_found self.entry result) }
        ensures value { option_copied_mut result ≡ self.old.level }
    {
        if self.active() {
            Some(self.level_mut())
        } else {
            None
        }
    }

    /// A tick. The watchdogs that are due stop, and their routines are listed in order of start.
    /// The first listed one becomes active. Its stack begins below `top`, the end of the interrupt
    /// stack.
    pub fn due(&mut self, tick: u64, top: u32)
        requires top { frame_bytes ≤ top }
        requires level { self.old.level ≡ None }
        ensures { self.new ≡ due self.old tick top }
    {
        self.watchdogs.facts();
        self.soonest = list_since(&mut self.watchdogs, &mut self.listed, self.soonest, tick);
        self.level = next_level(&mut self.listed, top, self.link);
    }

    /// A device's interrupt. Its routines are listed in this order, and the first becomes active.
    /// Its stack begins below `top`, the end of the interrupt stack.
    pub fn begin(&mut self, routines: &[Routine], top: u32)
        requires some { 0 < length routines.now }
        requires few { length routines.now ≤ most_watchdogs }
        requires top { frame_bytes ≤ top }
        requires level { self.old.level ≡ None }
        ensures { self.new ≡ begun self.old routines.now top }
    {
        list_routines(&mut self.listed, routines);
        self.level = next_level(&mut self.listed, top, self.link);
    }

    /// Ends the active routine. The next listed one becomes active, if there is one. Its stack
    /// begins below `top`.
    pub fn finish(&mut self, top: u32)
        requires { frame_bytes ≤ top }
        ensures { self.new ≡ finish self.old top }
    {
        self.level = next_level(&mut self.listed, top, self.link);
    }
}
