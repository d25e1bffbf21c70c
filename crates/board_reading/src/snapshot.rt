//! What a trace keeps of a state until the step after it is made.

ghost use Rattle.std.specs.Prelude.{◌≡◌, ◌==◌, ◌++◌, ◌∷◌, ◌+◌, ◌≤◌, [], None, true, map, take, length, max, IfOk, OnOk};
ghost use Rattle.std.specs.List.{position};
ghost use Rattle.wind_core.specs.State.{IsKern};
ghost use Rattle.kernel_world.specs.State.{WorldState};
ghost use Rattle.board_reading.specs.Moved.{IsMoved};
ghost use Rattle.id_table.specs.Rows.{ids as ids_lem, objects as objects_lem};
ghost use Rattle.kernel_world.specs.Seen.{world_seen};
ghost use Rattle.board_changes.specs.Views.{view_of_watchdog};
ghost use Rattle.board_trace.specs.Snapshots.{snapshot_of, view_in};
ghost use Rattle.board_trace.specs.Views.{snapshot_state};

use crate::waited::{awaited_by, is_awaited};
use board_changes::{TaskView, WatchdogView, task_view, watchdog_view};
use board_trace::Snapshot;
use id_table::{Ident, Table};
use isr_watch::Watchdog;
use kernel_world::{Objects, World};
use module_loader::Modules;
use std::alloc::Global;
use task_block::Task;
use wind_base::NoMemory;
use wind_base::limits::{MODULES, TASKS, WATCHDOGS};
use wind_core::Kern;
use wind_outside::Device;

// Adds an item at the end.
fn add<T: Drop>(list: &mut Vec<T>, item: T) -> Result<(), NoMemory>
    ensures { OnOk result (list.new.items ≡ list.old.items ++ item ∷ []) }
{
    if list.push(item).is_err() {
        return Err(NoMemory);
    }
    Ok(())
}

// Whether this is the view of a task among these objects. The numbers are compared first: the wait
// may need a search for an object.
#[inline(always)]
fn is_view_of(view: &TaskView, objects: &Objects, task: &Task) -> bool
    ensures { result ≡ true → view.now ≡ view_in objects.now task.now }
{
    view.id == task.id
        && view.answer == task.regs.gpr[3]
        && view.errno == task.errno
        && view.pri == task.pri
        && view.normal == task.normal
        && view.since == task.since
        && view.suspended == task.suspended
        && view.wake == task.wake
        && is_awaited(objects, view.wait, task.wait)
        && view.name.bytes() == task.name.bytes()
}

// Makes this the view of a task. Most views are it already, and a test costs less than a copy.
fn renew(view: &mut TaskView, objects: &Objects, task: &Task)
    ensures { view.new ≡ view_in objects.now task.now }
{
    if is_view_of(view, objects, task) {
        return;
    }
    *view = task_view(task, awaited_by(objects, task));
}

// Puts the view of a task at a place, which may be the one after the last.
fn put_view(
    views: &mut Vec<TaskView>,
    place: usize,
    objects: &Objects,
    task: &Task,
) -> Result<(), NoMemory>
    requires { place ≤ length views.old.items }
    ensures put { OnOk result (take (place + 1) views.new.items
        ≡ take place views.old.items ++ view_in objects.now task.now ∷ []) }
    ensures len { OnOk result (length views.new.items ≡ max (length views.old.items) (place + 1)) }
{
    if place == views.len() {
        return add(views, task_view(task, awaited_by(objects, task)));
    }
    renew(&mut views[place], objects, task);
    Ok(())
}

// Takes the views of the tasks.
fn take_tasks(views: &mut Vec<TaskView>, kern: &Kern, objects: &Objects) -> Result<(), NoMemory>
    ensures { OnOk result (views.new.items ≡ map (view_in objects.now) kern.now.tasks) }
{
    views.truncate(kern.live() as usize);
    for place in 0..kern.live() {
        put_view(views, place as usize, objects, kern.task_at(place))?;
    }
    Ok(())
}

// Takes the views of the watchdogs.
fn take_watchdogs(
    views: &mut Vec<WatchdogView>,
    watchdogs: &Table<Watchdog>,
) -> Result<(), NoMemory>
    ensures { OnOk result (views.new.items ≡ map view_of_watchdog (objects_lem watchdogs.now.rows)) }
{
    views.clear();
    for place in 0..watchdogs.len() {
        add(views, watchdog_view(watchdogs.value_at(place)))?;
    }
    Ok(())
}

// Takes the ids of the modules.
fn take_modules(taken: &mut Vec<Ident>, modules: &Modules) -> Result<(), NoMemory>
    ensures { OnOk result (taken.new.items ≡ ids_lem modules.now.rows) }
{
    modules.facts();
    taken.clear();
    let mut last = 0;
    while let Some(id) = modules.next_after(last) {
        last = id.get();
        add(taken, id)?;
    }
    Ok(())
}

// The place of the view of a task.
fn place_of(views: &[TaskView], who: Ident) -> Option<usize>
    ensures { result ≡ position (λ v. v.id == who) views.now }
{
    views.iter().position(|view| view.id == who)
}

/// An empty snapshot with room for the most tasks, watchdogs and modules.
pub fn empty_snapshot(alloc: Global) -> Result<Snapshot, NoMemory>
    ensures { IfOk result (λ s. snapshot_state s
        ≡ record { tasks = []; watchdogs = []; modules = []; last = None }) }
{
    let tasks = Vec::with_capacity(alloc, TASKS as usize)?;
    let watchdogs = Vec::with_capacity(alloc, WATCHDOGS as usize)?;
    let modules = Vec::with_capacity(alloc, MODULES as usize)?;
    Ok(Snapshot {
        tasks,
        watchdogs,
        modules,
        last: None,
    })
}

/// Makes this the snapshot of a world.
pub fn take_snapshot(snapshot: &mut Snapshot, world: &World) -> Result<(), NoMemory>
    ensures { OnOk result (snapshot_state snapshot.new
        ≡ snapshot_of (world_seen ⟦<dyn Device as Device>⟧ world.now)) }
{
    take_tasks(&mut snapshot.tasks, &world.kern, &world.objects)?;
    take_watchdogs(&mut snapshot.watchdogs, world.watch.watchdogs())?;
    take_modules(&mut snapshot.modules, &world.mods)?;
    snapshot.last = world.kern.last();
    Ok(())
}

/// Takes the view of a task again. If at most this task's registers have changed of what a snapshot
/// shows, the result is a snapshot of this world.
pub fn retake_task(snapshot: &mut Snapshot, world: &World, who: Ident)
    ensures { (w : WorldState) → IsKern w.kern → IsMoved w (world_seen ⟦<dyn Device as Device>⟧ world.now) who
        → snapshot_state snapshot.old ≡ snapshot_of w
        → snapshot_state snapshot.new ≡ snapshot_of (world_seen ⟦<dyn Device as Device>⟧ world.now) }
{
    let Some(task) = world.kern.task(who) else {
        return;
    };
    let Some(place) = place_of(&snapshot.tasks, who) else {
        return;
    };
    renew(&mut snapshot.tasks[place], &world.objects, task);
}
