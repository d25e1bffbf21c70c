//! The outcome of a run.

ghost use Rattle.std.specs.Prelude.{◌≡◌, ◌++◌, OnOk, IfOk, codes};
ghost use Rattle.std.specs.List.{flat_map};
ghost use Rattle.wind_session.specs.BoardPlayerSeen.{seen};
ghost use Rattle.board_trace.specs.Snapshots.{snapshot_of};
ghost use Rattle.trace_text.specs.Changes.{awaited_text};
ghost use Rattle.trace_text.specs.Ending.{suspended_text};
ghost use Rattle.sweep_run.specs.Outcomes.{how_text, outcome_text as outcome_text_lem, standing_text, state_text};
ghost use Rattle.sweep_run.specs.Runs.{start_state};

use crate::finish::Finish;
use crate::marks::add_marked;
use crate::start::Start;
use board_changes::{Awaited, TaskView};
use board_reading::{empty_snapshot, take_snapshot};
use std::alloc::Global;
use trace_text::{add, add_awaited, add_decimal, add_escaped};
use wind_base::NoMemory;
use wind_outside::Device;
use wind_session::Board;

// How a run ended.
fn how(finish: Finish) -> &'static [u8]
    ensures { result.now ≡ how_text finish }
{
    match finish {
        Finish::NoStepLeft => b"no step is left",
        Finish::LimitReached => b"the limit of steps is reached",
    }
}

// Adds what a task waits for.
fn add_wait(text: &mut Vec<u8>, object: Awaited) -> Result<(), NoMemory>
    ensures { OnOk result (text.new.items ≡ text.old.items ++ (codes " waits for " ++ awaited_text object)) }
{
    add(text, b" waits for ")?;
    add_awaited(text, object)
}

// Adds what a task does: it waits, sleeps, is suspended, or is ready.
fn add_state(
    text: &mut Vec<u8>,
    wait: Option<Awaited>,
    wake: Option<u64>,
    suspended: bool,
) -> Result<(), NoMemory>
    ensures { OnOk result (text.new.items ≡ text.old.items ++ state_text wait wake suspended) }
{
    match (wait, wake, suspended) {
        (Some(object), _, _) => add_wait(text, object),
        (None, Some(_), _) => add(text, b" sleeps"),
        (None, None, true) => Ok(()),
        (None, None, false) => add(text, b" is ready"),
    }
}

// Adds that a task is suspended, if it is.
fn add_suspended(text: &mut Vec<u8>, suspended: bool) -> Result<(), NoMemory>
    ensures { OnOk result (text.new.items ≡ text.old.items ++ suspended_text suspended) }
{
    if suspended {
        return add(text, b" is suspended");
    }
    Ok(())
}

// Adds a task and what it does.
fn add_standing(text: &mut Vec<u8>, view: &TaskView) -> Result<(), NoMemory>
    ensures { OnOk result (text.new.items ≡ text.old.items ++ standing_text view.now) }
{
    add(text, b"; ")?;
    add_decimal(text, u64::from(view.id.get()))?;
    add(text, b" ")?;
    add_escaped(text, view.name.bytes())?;
    add_state(text, view.wait, view.wake, view.suspended)?;
    add_suspended(text, view.suspended)
}

// Adds what each task does.
fn add_standings(text: &mut Vec<u8>, views: &[TaskView]) -> Result<(), NoMemory>
    ensures { OnOk result (text.new.items ≡ text.old.items ++ flat_map standing_text views.now) }
{
    for view in views {
        add_standing(text, view)?;
    }
    Ok(())
}

// Adds what each task of a board does.
fn add_tasks(alloc: Global, text: &mut Vec<u8>, board: &Board) -> Result<(), NoMemory>
    ensures { OnOk result (text.new.items ≡ text.old.items
        ++ flat_map standing_text (snapshot_of (seen ⟦<dyn Device as Device>⟧ board.now).world).tasks) }
{
    let mut snapshot = empty_snapshot(alloc)?;
    take_snapshot(&mut snapshot, board.world())?;
    add_standings(text, &snapshot.tasks)
}

/// The outcome of a run that ended like this and left this board, after the console wrote this
/// text: how it ended, what each task does, and in a line of its own each marked line.
pub(crate) fn outcome_text(
    alloc: Global,
    start: &Start,
    finish: Finish,
    board: &Board,
    console: &[u8],
) -> Result<Vec<u8>, NoMemory>
    ensures { IfOk result (λ text. text.items ≡ outcome_text_lem (start_state start.now).marks
        (record { finish = finish; state = seen ⟦<dyn Device as Device>⟧ board.now; written = console.now })) }
{
    let mut text = Vec::new(alloc);
    add(&mut text, how(finish))?;
    add_tasks(alloc, &mut text, board)?;
    add_marked(&mut text, &start.marks, console)?;
    Ok(text)
}
