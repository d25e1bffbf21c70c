//! The last line: how the run ended, and why nothing runs.

ghost use Rattle.std.specs.Prelude.{◌≡◌, ◌++◌, OnOk};
ghost use Rattle.trace_text.specs.Ending.{bytes_left_text, last_line, outcome_text, sleeping_text, standing_text, standings, state_text, suspended_text, waiting_text};

use crate::changes::{add_awaited, add_until, add_until_tick};
use crate::lines::{Moment, add_columns};
use crate::pieces::{add, add_decimal, add_escaped, add_with};
use board_changes::{Awaited, TaskView};
use board_trace::Subject;
use std::alloc::Global;
use wind_base::NoMemory;

// Adds what a task waits for.
fn add_wait(text: &mut Vec<u8>, object: Awaited, until: Option<u64>) -> Result<(), NoMemory>
    ensures { OnOk result (text.new.items ≡ text.old.items ++ waiting_text object until) }
{
    add(text, b" waits for ")?;
    add_awaited(text, object)?;
    add_until(text, until)
}

// Adds that a task sleeps.
fn add_sleep(text: &mut Vec<u8>, tick: u64) -> Result<(), NoMemory>
    ensures { OnOk result (text.new.items ≡ text.old.items ++ sleeping_text tick) }
{
    add(text, b" sleeps")?;
    add_until_tick(text, tick)
}

// Adds what a task does: it waits, sleeps, is suspended, or is ready.
fn add_state(
    text: &mut Vec<u8>,
    wait: Option<Awaited>,
    wake: Option<u64>,
    suspended: bool,
) -> Result<(), NoMemory>
    ensures { OnOk result (text.new.items ≡ text.old.items ++ state_text wait wake suspended) }
{
    match (wait, wake, suspended) {
        (Some(object), until, _) => add_wait(text, object, until),
        (None, Some(tick), _) => add_sleep(text, tick),
        (None, None, true) => Ok(()),
        (None, None, false) => add(text, b" is ready"),
    }
}

// Adds that a task is suspended, if it is.
fn add_suspended(text: &mut Vec<u8>, suspended: bool) -> Result<(), NoMemory>
    ensures { OnOk result (text.new.items ≡ text.old.items ++ suspended_text suspended) }
{
    if suspended {
        return add(text, b" is suspended");
    }
    Ok(())
}

// Adds a task and what it does.
fn add_standing(text: &mut Vec<u8>, view: &TaskView) -> Result<(), NoMemory>
    ensures { OnOk result (text.new.items ≡ text.old.items ++ standing_text view.now) }
{
    add(text, b"; ")?;
    add_decimal(text, u64::from(view.id.get()))?;
    add(text, b" ")?;
    add_escaped(text, view.name.bytes())?;
    add_state(text, view.wait, view.wake, view.suspended)?;
    add_suspended(text, view.suspended)
}

// Adds what each task does.
fn add_standings(text: &mut Vec<u8>, views: &[TaskView]) -> Result<(), NoMemory>
    ensures { OnOk result (text.new.items ≡ text.old.items ++ standings views.now) }
{
    for view in views {
        add_standing(text, view)?;
    }
    Ok(())
}

// Adds how many bytes of the console file are left, and the end of the line.
fn add_bytes_left(text: &mut Vec<u8>, left: u64) -> Result<(), NoMemory>
    ensures { OnOk result (text.new.items ≡ text.old.items ++ bytes_left_text left) }
{
    add_with(text, b"; bytes of the console left: ", left)?;
    add(text, b"\n")
}

// Adds how the run ended.
fn add_outcome(
    text: &mut Vec<u8>,
    how: &[u8],
    views: &[TaskView],
    left: u64,
) -> Result<(), NoMemory>
    ensures { OnOk result (text.new.items ≡ text.old.items ++ outcome_text how.now views.now left) }
{
    add(text, b"the run ends: ")?;
    add(text, how)?;
    add_standings(text, views)?;
    add_bytes_left(text, left)
}

/// Adds the last line: how the run ended, what each task does, and how many bytes of the console
/// file are left.
pub(crate) fn add_last_line(
    alloc: Global,
    text: &mut Vec<u8>,
    at: Moment,
    how: &[u8],
    views: &[TaskView],
    left: u64,
) -> Result<(), NoMemory>
    ensures { OnOk result (text.new.items ≡ text.old.items ++ last_line at.time at.step how.now views.now left) }
{
    add_columns(alloc, text, at, Subject::Board, b"")?;
    add_outcome(text, how, views, left)
}
