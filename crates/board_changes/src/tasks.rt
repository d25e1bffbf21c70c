//! The changes of tasks.

ghost use Rattle.std.specs.Prelude.{◌≡◌, ◌++◌, OnOk, true, None, option_copied};
ghost use Rattle.board_changes.specs.Listed.{listed};
ghost use Rattle.board_changes.specs.Tasks.{all_quiet, is_quiet as is_quiet_lem, is_ready as is_ready_lem, newborn as newborn_lem, normal_changes, suspension_changes, priority_changes, yield_changes, kept_changes, changes_of, live_changes, deletion, deletions, task_changes};

use crate::change::Change;
use crate::list::{add, add_if};
use crate::view::{TaskView, Views};
use crate::waits::{add_wait_changes, same_tick, same_wait};
use crate::walk::{START, found};
use id_table::Ident;
use wind_base::NoMemory;

// The beginning or the end of a suspension.
fn suspension_change(who: Ident, before: bool, after: bool) -> Option<Change>
    ensures { listed result ≡ suspension_changes who before after }
{
    match (before, after) {
        (false, true) => Some(Change::Suspended { who }),
        (true, false) => Some(Change::Resumed { who }),
        (false, false) | (true, true) => None,
    }
}

// The change of a task's priority. It is by inheritance if the normal priority is the same.
fn priority_change(before: &TaskView, after: &TaskView) -> Option<Change>
    ensures { listed result ≡ priority_changes before.now after.now }
{
    if before.pri == after.pri {
        return None;
    }
    Some(Change::Priority {
        who: after.id,
        from: before.pri,
        to: after.pri,
        inherited: before.normal == after.normal,
    })
}

// The change of a task's normal priority, unless that of its priority tells it.
fn normal_change(before: &TaskView, after: &TaskView) -> Option<Change>
    ensures { listed result ≡ normal_changes before.now after.now }
{
    if before.normal == after.normal || (before.pri != after.pri && after.pri == after.normal) {
        return None;
    }
    Some(Change::Normal {
        who: after.id,
        to: after.normal,
    })
}

// Whether a task waits for nothing, doesn't sleep and isn't suspended.
fn is_ready(view: &TaskView) -> bool
    ensures { result ≡ is_ready_lem view.now }
{
    view.wait.is_none() && view.wake.is_none() && !view.suspended
}

// That a ready task goes after the others of its priority, if it does.
fn yield_change(before: &TaskView, after: &TaskView) -> Option<Change>
    ensures { listed result ≡ yield_changes before.now after.now }
{
    if before.since == after.since
        || !(before.pri == after.pri && is_ready(before) && is_ready(after))
    {
        return None;
    }
    Some(Change::Yields { who: after.id })
}

// Whether these are views of one task whose changes need no line.
fn is_quiet(before: &TaskView, after: &TaskView) -> bool
    ensures { result ≡ is_quiet_lem before.now after.now }
{
    before.id == after.id
        && before.pri == after.pri
        && before.normal == after.normal
        && before.suspended == after.suspended
        && same_wait(&before.wait, &after.wait)
        && same_tick(before.wake, after.wake)
        && before.since == after.since
}

// Whether no change of a task needs a line: the tasks are the same, by rising id, and quiet.
fn are_quiet(before: &[TaskView], after: &[TaskView]) -> bool
    ensures { result ≡ true → all_quiet 0 before.now after.now ≡ true }
{
    if before.len() != after.len() {
        return false;
    }
    let mut last = 0;
    for place in 0..before.len() {
        let who = before[place].id.get();
        if who <= last || !is_quiet(&before[place], &after[place]) {
            return false;
        }
        last = who;
    }
    true
}

// Adds the changes of a task that lives before and after.
fn add_kept_changes(
    list: &mut Vec<Change>,
    results: bool,
    before: &TaskView,
    after: &TaskView,
) -> Result<(), NoMemory>
    ensures { OnOk result (list.new.items ≡ list.old.items ++ kept_changes results before.now after.now) }
{
    add_wait_changes(list, results, before, after)?;
    let suspension = suspension_change(after.id, before.suspended, after.suspended);
    add_if(list, suspension)?;
    add_if(list, priority_change(before, after))?;
    add_if(list, normal_change(before, after))?;
    add_if(list, yield_change(before, after))
}

// The view of a new task: it is ready, and its priority is its normal one.
fn newborn(view: &TaskView) -> TaskView
    ensures { result ≡ newborn_lem view.now }
{
    TaskView {
        id: view.id,
        name: view.name.copied(),
        pri: view.pri,
        normal: view.pri,
        since: view.since,
        wait: None,
        wake: None,
        suspended: false,
        answer: view.answer,
        errno: view.errno,
    }
}

// Adds that a task is spawned, and what changed of it since.
fn add_spawn(list: &mut Vec<Change>, results: bool, after: &TaskView) -> Result<(), NoMemory>
    ensures { OnOk result (list.new.items ≡ list.old.items ++ changes_of results None after.now) }
{
    let spawned = Change::Spawned {
        who: after.id,
        pri: after.pri,
    };
    add(list, spawned)?;
    add_kept_changes(list, results, &newborn(after), after)
}

// Adds the changes of a task that lives after a step.
fn add_changes_of(
    list: &mut Vec<Change>,
    results: bool,
    before: Option<&TaskView>,
    after: &TaskView,
) -> Result<(), NoMemory>
    ensures { OnOk result (list.new.items
        ≡ list.old.items ++ changes_of results (option_copied before.entry) after.now) }
{
    match before {
        Some(before) => add_kept_changes(list, results, before, after),
        None => add_spawn(list, results, after),
    }
}

// Adds the changes of the tasks that live after a step.
fn add_live(list: &mut Vec<Change>, results: bool, views: &Views<TaskView>) -> Result<(), NoMemory>
    ensures { OnOk result (list.new.items
        ≡ list.old.items ++ live_changes results views.now.before.now views.now.after.now) }
{
    let mut walk = START;
    for view in views.after {
        let before = found(views.before, &mut walk, view.id);
        add_changes_of(list, results, before, view)?;
    }
    Ok(())
}

// That a task is gone, if it isn't found.
fn deletion_change(who: Ident, after: Option<&TaskView>) -> Option<Change>
    ensures { listed result ≡ deletion who (option_copied after.entry) }
{
    match after {
        Some(_) => None,
        None => Some(Change::Deleted { who }),
    }
}

// Adds the tasks that are gone.
fn add_deletions(list: &mut Vec<Change>, views: &Views<TaskView>) -> Result<(), NoMemory>
    ensures { OnOk result (list.new.items
        ≡ list.old.items ++ deletions views.now.after.now views.now.before.now) }
{
    let mut walk = START;
    for view in views.before {
        let after = found(views.after, &mut walk, view.id);
        add_if(list, deletion_change(view.id, after))?;
    }
    Ok(())
}

/// Adds what a step changed of tasks: those that live after it in their order, and then those that
/// are gone. `results` says whether the step may end a wait with a result.
pub fn add_task_changes(
    list: &mut Vec<Change>,
    results: bool,
    before: &[TaskView],
    after: &[TaskView],
) -> Result<(), NoMemory>
    ensures { OnOk result (list.new.items ≡ list.old.items ++ task_changes results before.now after.now) }
{
    if are_quiet(before, after) {
        return Ok(());
    }
    let views = Views { before, after };
    add_live(list, results, &views)?;
    add_deletions(list, &views)
}
