//! Changes of tasks, watchdogs and modules as JSON.

ghost use Rattle.std.specs.Prelude.{◌≡◌, ◌∷◌, [], IfOk, OnOk, Some, codes};
ghost use Rattle.std.specs.Int.{cast_signed, w32};
ghost use Rattle.serde_json.specs.Data.{number};
ghost use Rattle.serde_json.specs.Find.{of_integer};
ghost use Rattle.serde_json.specs.View.{view};
ghost use Rattle.board_trace.specs.Errors.{errno_named as errno_named_lem};
ghost use Rattle.trace_state.specs.Held.{members_in};
ghost use Rattle.trace_state.specs.Json.{with_all, with_member};
ghost use Rattle.trace_state.specs.Tasks.{wait_data};
ghost use Rattle.trace_json.specs.Changes.{change_members, change_word as change_word_lem, error_data, failed_members, priority_members, served_members, started_members, waits_members};

use board_changes::{Awaited, Change};
use board_trace::errno_named;
use id_table::Ident;
use serde_json::Value;
use std::alloc::{AllocError, Global};
use trace_state::{Members, number_or_null, wait_value};
use wind_base::{Errno, Pri};

/// The word for a change.
pub(crate) fn change_word(change: &Change) -> &'static str
    ensures { result.now ≡ change_word_lem change.now }
{
    match change {
        Change::Spawned { .. } => "spawned",
        Change::Deleted { .. } => "deleted",
        Change::Waits { .. } => "waits",
        Change::Sleeps { .. } => "sleeps",
        Change::Served { .. } => "served",
        Change::Failed { .. } => "failed",
        Change::GoesOn { .. } => "goes_on",
        Change::Wakes { .. } => "wakes",
        Change::Suspended { .. } => "suspended",
        Change::Resumed { .. } => "resumed",
        Change::Priority { .. } => "priority",
        Change::Normal { .. } => "normal_priority",
        Change::Yields { .. } => "yields",
        Change::Started { .. } => "watchdog_started",
        Change::Fired { .. } => "watchdog_fires",
        Change::Cancelled { .. } => "watchdog_cancelled",
        Change::Loaded { .. } => "module_loaded",
        Change::Unloaded { .. } => "module_unloaded",
    }
}

// Adds what a task waits for or waited for.
fn add_wait(alloc: Global, members: &mut Members, object: Awaited) -> Result<(), AllocError>
    ensures { OnOk result (members_in members.new
        ≡ with_member (codes "wait") (wait_data (Some object)) (members_in members.old)) }
{
    let wait = wait_value(alloc, &Some(object))?;
    members.put("wait", wait)
}

// The name of an error, or null.
fn error_value(alloc: Global, errno: Option<Errno>) -> Result<Value, AllocError>
    ensures { IfOk result (λ v. view v ≡ error_data errno) }
{
    match errno {
        Some(errno) => Value::try_from_str(alloc, errno.name()),
        None => Ok(Value::Null),
    }
}

// Adds for what a task waits, and until which tick.
fn add_waits(
    alloc: Global,
    members: &mut Members,
    object: Awaited,
    until: Option<u64>,
) -> Result<(), AllocError>
    ensures { OnOk result (members_in members.new ≡ with_all (waits_members object until) (members_in members.old)) }
{
    add_wait(alloc, members, object)?;
    members.put("until", number_or_null(until))
}

// Adds for what a task waited, and the result.
fn add_served(
    alloc: Global,
    members: &mut Members,
    object: Awaited,
    answer: u32,
) -> Result<(), AllocError>
    ensures { OnOk result (members_in members.new ≡ with_all (served_members object answer) (members_in members.old)) }
{
    add_wait(alloc, members, object)?;
    members.put("result", Value::from(answer.cast_signed()))
}

// Adds for what a task waited, and the error.
fn add_failed(
    alloc: Global,
    members: &mut Members,
    object: Awaited,
    errno: u32,
) -> Result<(), AllocError>
    ensures { OnOk result (members_in members.new ≡ with_all (failed_members object errno) (members_in members.old)) }
{
    add_wait(alloc, members, object)?;
    members.put_number("errno", u64::from(errno))?;
    let error = error_value(alloc, errno_named(errno))?;
    members.put("error", error)
}

// Adds both priorities, and whether the new one is inherited.
fn add_priority(
    members: &mut Members,
    from: Pri,
    to: Pri,
    inherited: bool,
) -> Result<(), AllocError>
    ensures { OnOk result (members_in members.new
        ≡ with_all (priority_members from to inherited) (members_in members.old)) }
{
    members.put_number("from", u64::from(from.get()))?;
    members.put_number("to", u64::from(to.get()))?;
    members.put_flag("inherited", inherited)
}

// Adds a watchdog, and the tick at which it is due.
fn add_started(members: &mut Members, watchdog: Ident, due: u64) -> Result<(), AllocError>
    ensures { OnOk result (members_in members.new ≡ with_all (started_members watchdog due) (members_in members.old)) }
{
    members.put_number("watchdog", u64::from(watchdog.get()))?;
    members.put_number("due", due)
}

/// Adds what else is told of a change.
pub(crate) fn add_change(
    alloc: Global,
    members: &mut Members,
    change: &Change,
) -> Result<(), AllocError>
    ensures { OnOk result (members_in members.new ≡ with_all (change_members change.now) (members_in members.old)) }
{
    match change {
        Change::Deleted { .. }
        | Change::Wakes { .. }
        | Change::Suspended { .. }
        | Change::Resumed { .. }
        | Change::Yields { .. } => Ok(()),
        Change::Spawned { pri, .. } => members.put_number("priority", u64::from(pri.get())),
        Change::Waits { object, until, .. } => add_waits(alloc, members, *object, *until),
        Change::Sleeps { until, .. } => members.put_number("until", *until),
        Change::Served { object, answer, .. } => add_served(alloc, members, *object, *answer),
        Change::Failed { object, errno, .. } => add_failed(alloc, members, *object, *errno),
        Change::GoesOn { object, .. } => add_wait(alloc, members, *object),
        Change::Priority {
            from,
            to,
            inherited,
            ..
        } => add_priority(members, *from, *to, *inherited),
        Change::Normal { to, .. } => members.put_number("to", u64::from(to.get())),
        Change::Started { watchdog, due } => add_started(members, *watchdog, *due),
        Change::Fired { watchdog } | Change::Cancelled { watchdog } => {
            members.put_number("watchdog", u64::from(watchdog.get()))
        }
        Change::Loaded { id } | Change::Unloaded { id } => {
            members.put_number("module", u64::from(id.get()))
        }
    }
}
