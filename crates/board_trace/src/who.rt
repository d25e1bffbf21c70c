//! Who a happening is told of.

ghost use Rattle.std.specs.Prelude.{◌≡◌, ◌≤◌, length};
ghost use Rattle.wind_base.specs.Limits.{longest_short_name};
ghost use Rattle.board_trace.specs.Runs.{is_task as is_task_lem, same_actor as same_actor_lem};
ghost use Rattle.board_trace.specs.Subjects.{subject_actor as subject_actor_lem, subject_change as subject_change_lem, subject_of as subject_of_lem, subject_name as subject_name_lem, subject_writer as subject_writer_lem, is_new as is_new_lem, name_of as name_of_lem};
ghost use Rattle.board_trace.specs.Views.{snapshot_state};

use crate::happening::Happening;
use crate::names::name_in;
use crate::snapshot::Snapshot;
use board_changes::Change;
use id_table::Ident;
use kernel_world::Actor;

/// Who a happening is told of.
#[derive(Clone, Copy, Debug, PartialEq, Eq)]
pub enum Subject {
    /// What comes from outside, and the kernel's objects.
    Board,
    /// The interrupt level.
    Interrupt,
    /// The task with this id.
    Task(u32),
}

// A task or the interrupt level.
fn subject_actor(who: Actor) -> Subject
    ensures { result ≡ subject_actor_lem who }
{
    match who {
        Actor::Task(id) => Subject::Task(id.get()),
        Actor::Interrupt => Subject::Interrupt,
    }
}

// Who a change is told of.
fn subject_change(change: &Change) -> Subject
    ensures { result ≡ subject_change_lem change.now }
{
    match change {
        Change::Spawned { who, .. }
        | Change::Deleted { who }
        | Change::Waits { who, .. }
        | Change::Sleeps { who, .. }
        | Change::Served { who, .. }
        | Change::Failed { who, .. }
        | Change::GoesOn { who, .. }
        | Change::Wakes { who }
        | Change::Suspended { who }
        | Change::Resumed { who }
        | Change::Priority { who, .. }
        | Change::Normal { who, .. }
        | Change::Yields { who } => Subject::Task(who.get()),
        Change::Started { .. }
        | Change::Fired { .. }
        | Change::Cancelled { .. }
        | Change::Loaded { .. }
        | Change::Unloaded { .. } => Subject::Board,
    }
}

// Who what was written is told of: who made the step, else the board.
fn subject_writer(who: Option<Actor>) -> Subject
    ensures { result ≡ subject_writer_lem who }
{
    match who {
        Some(who) => subject_actor(who),
        None => Subject::Board,
    }
}

/// Who a happening is told of.
pub fn subject_of(happening: &Happening) -> Subject
    ensures { result ≡ subject_of_lem happening.now }
{
    match happening {
        Happening::Tick { .. }
        | Happening::Arrival { .. }
        | Happening::Interrupt { .. }
        | Happening::Delivery { .. }
        | Happening::Jump { .. } => Subject::Board,
        Happening::File(_) | Happening::Abort => Subject::Task(1),
        Happening::Runs { who, .. } => Subject::Task(who.get()),
        Happening::Called { who, .. }
        | Happening::Exception { who, .. }
        | Happening::Instructions { who, .. }
        | Happening::Queued { sender: who, .. }
        | Happening::HandedOver { sender: who, .. }
        | Happening::Taken { receiver: who, .. } => subject_actor(*who),
        Happening::Owned { owner, .. } | Happening::Freed { owner, .. } => Subject::Task(*owner),
        Happening::Changed(change) => subject_change(change),
        Happening::RoutineEnds | Happening::RoutineBegins { .. } => Subject::Interrupt,
        Happening::Writes { who, .. } => subject_writer(*who),
    }
}

// Whether it is this task.
fn is_task(who: Actor, id: Ident) -> bool
    ensures { result ≡ is_task_lem who id }
{
    match who {
        Actor::Task(who) => who == id,
        Actor::Interrupt => false,
    }
}

/// Whether it is the same task or routine.
pub fn same_actor(one: Actor, other: Actor) -> bool
    ensures { result ≡ same_actor_lem one other }
{
    match one {
        Actor::Task(one) => is_task(other, one),
        Actor::Interrupt => matches!(other, Actor::Interrupt),
    }
}

// Whether the task that something happens to is new.
fn is_new(happening: &Happening) -> bool
    ensures { result ≡ is_new_lem happening.now }
{
    matches!(happening, Happening::Changed(Change::Spawned { .. }))
}

// The name of a subject, if it is a task of this snapshot.
fn name_of(views: &Snapshot, subject: Subject) -> &[u8]
    ensures value { result.now ≡ name_of_lem (snapshot_state views.now) subject }
    ensures within { length result.now ≤ longest_short_name }
{
    match subject {
        Subject::Task(id) => name_in(views, id),
        Subject::Board | Subject::Interrupt => b"",
    }
}

/// The name of the task that something happens to, before the step; a new task's name after it. No
/// bytes, if it happens to no task.
pub fn subject_name<'a>(
    before: &'a Snapshot,
    after: &'a Snapshot,
    happening: &Happening,
) -> &'a [u8]
    ensures value { result.now ≡ subject_name_lem (snapshot_state before.now) (snapshot_state after.now) happening.now }
    ensures within { length result.now ≤ longest_short_name }
{
    let views = if is_new(happening) { after } else { before };
    name_of(views, subject_of(happening))
}

/// The name of the task that this is, if it is one of this snapshot.
pub fn actor_name(views: &Snapshot, who: Actor) -> &[u8]
    ensures value { result.now ≡ name_of_lem (snapshot_state views.now) (subject_actor_lem who) }
    ensures within { length result.now ≤ longest_short_name }
{
    name_of(views, subject_actor(who))
}
