//! The changes of watchdogs.

ghost use Rattle.std.specs.Prelude.{◌≡◌, ◌++◌, OnOk, option_copied};
ghost use Rattle.board_changes.specs.Listed.{listed};
ghost use Rattle.board_changes.specs.Watchdogs.{timer_of as timer_of_lem, timer_changes, live_changes, gone_change, gone_changes, watchdog_changes, stopped as stopped_lem};

use crate::change::Change;
use crate::list::add_if;
use crate::view::{Views, WatchdogView};
use crate::walk::{START, found};
use id_table::Ident;
use isr_watch::Timer;
use wind_base::NoMemory;

// The timer of a watchdog, if it is there and running.
fn timer_of(view: Option<&WatchdogView>) -> Option<Timer>
    ensures { result ≡ timer_of_lem (option_copied view.entry) }
{
    match view {
        Some(view) => view.timer,
        None => None,
    }
}

// How a running watchdog has stopped: its tick has come, or it was cancelled.
fn stopped(tick: u64, watchdog: Ident, timer: Timer) -> Change
    ensures { result ≡ stopped_lem tick watchdog timer }
{
    if timer.due <= tick {
        Change::Fired { watchdog }
    } else {
        Change::Cancelled { watchdog }
    }
}

// The start or the end of a watchdog's timer.
fn timer_change(
    tick: u64,
    watchdog: Ident,
    before: Option<Timer>,
    after: Option<Timer>,
) -> Option<Change>
    ensures { listed result ≡ timer_changes tick watchdog before after }
{
    match (before, after) {
        (None, None) => None,
        (None, Some(timer)) => Some(Change::Started {
            watchdog,
            due: timer.due,
        }),
        (Some(timer), None) => Some(stopped(tick, watchdog, timer)),
        (Some(old), Some(timer)) => {
            if old.start == timer.start {
                return None;
            }
            Some(Change::Started {
                watchdog,
                due: timer.due,
            })
        }
    }
}

// Adds the changes of the watchdogs that are there after a step.
fn add_live(list: &mut Vec<Change>, tick: u64, views: &Views<WatchdogView>) -> Result<(), NoMemory>
    ensures { OnOk result (list.new.items
        ≡ list.old.items ++ live_changes tick views.now.before.now views.now.after.now) }
{
    let mut walk = START;
    for view in views.after {
        let before = timer_of(found(views.before, &mut walk, view.id));
        add_if(list, timer_change(tick, view.id, before, view.timer))?;
    }
    Ok(())
}

// The end of the timer of a watchdog, if it isn't found.
fn end_change(tick: u64, before: WatchdogView, after: Option<&WatchdogView>) -> Option<Change>
    ensures { listed result ≡ gone_change tick before (option_copied after.entry) }
{
    match after {
        Some(_) => None,
        None => timer_change(tick, before.id, before.timer, None),
    }
}

// Adds the ends of the timers of watchdogs that are gone.
fn add_ends(list: &mut Vec<Change>, tick: u64, views: &Views<WatchdogView>) -> Result<(), NoMemory>
    ensures { OnOk result (list.new.items
        ≡ list.old.items ++ gone_changes tick views.now.after.now views.now.before.now) }
{
    let mut walk = START;
    for view in views.before {
        let after = found(views.after, &mut walk, view.id);
        add_if(list, end_change(tick, *view, after))?;
    }
    Ok(())
}

/// Adds what a step changed of watchdogs, at this tick: those that are there after it in their
/// order, and then those that are gone.
pub fn add_watchdog_changes(
    list: &mut Vec<Change>,
    tick: u64,
    before: &[WatchdogView],
    after: &[WatchdogView],
) -> Result<(), NoMemory>
    ensures { OnOk result (list.new.items ≡ list.old.items ++ watchdog_changes tick before.now after.now) }
{
    let views = Views { before, after };
    add_live(list, tick, &views)?;
    add_ends(list, tick, &views)
}
