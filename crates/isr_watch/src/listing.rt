//! The routines that a tick or a device's interrupt lists.

ghost use Rattle.std.specs.Prelude.{◌≡◌, ◌≤◌, ◌+◌, ◌++◌, map, length, option_copied};
ghost use Rattle.std.specs.Option.{option_map};
ghost use Rattle.std.specs.VecDeque.{deque_len, deque_capacity};
ghost use Rattle.wind_base.specs.Limits.{frame_bytes};
ghost use Rattle.id_table.specs.Rows.{objects, IsTable};
ghost use Rattle.isr_watch.specs.State.{first_due as first_due_lem, due_watchdogs, watchdog_routine};
ghost use Rattle.isr_watch.specs.Calls.{stop_due, level_of, rest_of};
ghost use Rattle.isr_watch.specs.Inside.{NoneBefore, SameIds, alarm_of as alarm_of_lem};

use crate::watchdog::{Alarm, Routine, Watchdog, alarm_of, better_due, due_of, routine_regs};
use id_table::Table;
use std::collections::VecDeque;
use wind_base::Regs;

// Of the watchdogs that are due, the one started first.
fn first_due(watchdogs: &Table<Watchdog>, tick: u64) -> Option<&Watchdog>
    ensures { option_copied result ≡ first_due_lem (objects watchdogs.now.rows) tick }
{
    let mut best: Option<&Watchdog> = None;
    for index in 0..watchdogs.len() {
        best = better_due(best, watchdogs.value_at(index), tick);
    }
    best
}

// The same, with the table's invariant.
fn front_due(watchdogs: &Table<Watchdog>, tick: u64) -> Option<Alarm>
    ensures first { result ≡ option_map alarm_of_lem (first_due_lem (objects watchdogs.now.rows) tick) }
    ensures sound { IsTable watchdogs.now }
{
    watchdogs.facts();
    first_due(watchdogs, tick).map(|watchdog| alarm_of(watchdog))
}

// Stops all watchdogs that are due, and lists their routines in order of start.
fn list_due(watchdogs: &mut Table<Watchdog>, listed: &mut VecDeque<Routine>, tick: u64)
    requires own { SameIds watchdogs.old.rows }
    requires room { deque_len listed.old + length watchdogs.old.rows ≤ deque_capacity listed.old }
    ensures watchdogs { objects watchdogs.new.rows ≡ stop_due tick (objects watchdogs.old.rows) }
    ensures own { SameIds watchdogs.new.rows }
    ensures room { watchdogs.new.room ≡ watchdogs.old.room }
    ensures listed { listed.new.items
        ≡ listed.old.items ++ map watchdog_routine (due_watchdogs (objects watchdogs.old.rows) tick) }
    ensures capacity { deque_capacity listed.new ≡ deque_capacity listed.old }
{
    while let Some(next) = front_due(watchdogs, tick) {
        watchdogs.object_mut(next.id).timer = None;
        listed.push_back_reserved(next.routine);
    }
}

// A tick before which no watchdog is due: the least at which one is. The greatest number if none
// is running.
fn soonest_of(watchdogs: &Table<Watchdog>) -> u64
    ensures { NoneBefore result (objects watchdogs.now.rows) }
{
    let mut soonest = u64::MAX;
    for index in 0..watchdogs.len() {
        soonest = soonest.min(due_of(watchdogs.value_at(index)));
    }
    soonest
}

// Does what `list_due` does, if no watchdog is due before `soonest`. Returns such a tick for the
// watchdogs that are left.
pub(crate) fn list_since(
    watchdogs: &mut Table<Watchdog>,
    listed: &mut VecDeque<Routine>,
    soonest: u64,
    tick: u64,
) -> u64
    requires own { SameIds watchdogs.old.rows }
    requires early { NoneBefore soonest (objects watchdogs.old.rows) }
    requires room { deque_len listed.old + length watchdogs.old.rows ≤ deque_capacity listed.old }
    ensures early { NoneBefore result (objects watchdogs.new.rows) }
    ensures watchdogs { objects watchdogs.new.rows ≡ stop_due tick (objects watchdogs.old.rows) }
    ensures own { SameIds watchdogs.new.rows }
    ensures room { watchdogs.new.room ≡ watchdogs.old.room }
    ensures listed { listed.new.items
        ≡ listed.old.items ++ map watchdog_routine (due_watchdogs (objects watchdogs.old.rows) tick) }
    ensures capacity { deque_capacity listed.new ≡ deque_capacity listed.old }
{
    if tick < soonest {
        return soonest;
    }
    list_due(watchdogs, listed, tick);
    soonest_of(watchdogs)
}

// Lists these routines, in this order, after those that are listed.
pub(crate) fn list_routines(listed: &mut VecDeque<Routine>, routines: &[Routine])
    requires { deque_len listed.old + length routines.now ≤ deque_capacity listed.old }
    ensures listed { listed.new.items ≡ listed.old.items ++ routines.now }
    ensures capacity { deque_capacity listed.new ≡ deque_capacity listed.old }
{
    for routine in routines {
        listed.push_back_reserved(*routine);
    }
}

// Takes the first listed routine, if there is one, and makes the registers with which it begins.
pub(crate) fn next_level(listed: &mut VecDeque<Routine>, top: u32, link: u32) -> Option<Regs>
    requires { frame_bytes ≤ top }
    ensures level { result ≡ level_of top link listed.old.items }
    ensures rest { listed.new.items ≡ rest_of listed.old.items }
    ensures capacity { deque_capacity listed.new ≡ deque_capacity listed.old }
{
    let routine = listed.pop_front()?;
    Some(routine_regs(top, link, routine))
}
