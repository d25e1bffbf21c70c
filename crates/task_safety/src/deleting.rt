//! The deletion of tasks (VxWorks 5.4 Reference Manual, taskDelete).

ghost use Rattle.std.specs.Prelude.{◌≡◌, ◌<◌, ◌^◌, Some, option_copied};
ghost use Rattle.wind_core.specs.State.{Lives, task_of};
ghost use Rattle.wind_core.specs.Moves.{remove, set_again};
ghost use Rattle.task_safety.specs.Deletion.{again_of, target_of, missing as missing_lem, deed_on, deed_of as deed_of_lem, is_repeated, delete_answer, delete as delete_lem};

use crate::safety::lessen;
use id_table::sides::DELETION;
use id_table::{Ident, Place};
use task_block::Task;
use wind_base::Errno;
use wind_base::words::WAIT_FOREVER;
use wind_core::Kern;

/// The outcome of a deletion that isn't refused.
#[derive(Drop)]
pub enum Deleted {
    /// The target was removed.
    Removed(Task),
    /// The caller waits until the target leaves its last safe section. Then it repeats its call.
    Pended,
    /// The caller deleted itself.
    SelfEnded(Task),
}

/// What a call to delete a task will do. It is decided before anything changes.
#[derive(Drop)]
pub enum Deed {
    /// Nothing: the call is refused.
    Refuses(Errno),
    /// The caller, which is in the given number of safe sections, deletes itself.
    EndsItself(u64),
    /// This task is removed.
    Removes(Ident),
    /// The caller waits for the end of this task's safe sections.
    Awaits(Ident),
}

// Whether the task's call is a repetition of a call that pended.
fn is_again(k: &Kern, who: Ident) -> bool
    ensures { result ≡ again_of (task_of k.now.tasks who) }
{
    match k.task(who) {
        Some(task) => task.again,
        None => false,
    }
}

// The task with this number, if it is live.
fn target_task(k: &Kern, number: u32) -> Option<&Task>
    ensures { option_copied result ≡ target_of k.now.tasks number }
{
    let id = k.find(number)?;
    k.task(id)
}

// The error if the target isn't live.
fn missing(again: bool) -> Errno
    ensures { result ≡ missing_lem again }
{
    if again {
        Errno::ObjDeleted
    } else {
        Errno::ObjIdError
    }
}

// What a call does to a task that isn't the shell's.
fn deed_for(task: &Task, caller: Ident) -> Deed
    ensures { result ≡ deed_on caller task.now }
{
    if task.id == caller {
        Deed::EndsItself(task.safe)
    } else if task.safe == 0 {
        Deed::Removes(task.id)
    } else {
        Deed::Awaits(task.id)
    }
}

// What a call does to the task with this number.
fn deed_of(k: &Kern, caller: Ident, target: u32) -> Deed
    ensures { result ≡ deed_of_lem k.now.tasks caller target }
{
    if target == Ident::shell().get() {
        return Deed::Refuses(Errno::InvalidOperation);
    }
    match target_task(k, target) {
        Some(task) => deed_for(task, caller),
        None => Deed::Refuses(missing(is_again(k, caller))),
    }
}

// Marks the caller if it will repeat its call; otherwise clears the mark.
fn mark(k: &mut Kern, caller: Ident, deed: &Deed)
    requires { Lives k.old caller }
    ensures { k.new ≡ set_again k.old caller (is_repeated deed.now) }
{
    let again = match deed {
        Deed::Awaits(_) => true,
        _ => false,
    };
    k.set_again(caller, again);
}

// Removes a live task.
fn take_out(k: &mut Kern, who: Ident) -> Task
    requires { Lives k.old who }
    ensures task { task_of k.old.tasks who ≡ Some result }
    ensures kern { k.new ≡ remove k.old who }
{
    match k.remove(who) {
        Some(task) => task,
        None => unreachable!(),
    }
}

/// Deletes the task with this number, on behalf of the caller. If the target is the caller, its
/// safe sections end at once. If it is another task in a safe section, the caller waits for the end
/// of that task's safe sections, and will then repeat its call. The caller is marked if it waits;
/// otherwise its mark is cleared.
///
/// # Errors
///
/// `InvalidOperation` if the target is the shell's task. If there is no such task, `ObjDeleted` if
/// the call is a repetition, otherwise `ObjIdError`.
pub fn delete(k: &mut Kern, caller: Ident, target: u32) -> Result<Deleted, Errno>
    requires live { Lives k.old caller }
    requires since { k.old.next_since < 2 ^ 63 }
    requires tick { k.old.tick < 2 ^ 63 }
    ensures answer { delete_answer k.old caller target ≡ Some result }
    ensures kern { k.new ≡ delete_lem k.old caller target }
{
    let deed = deed_of(k, caller, target);
    mark(k, caller, &deed);
    match deed {
        Deed::Refuses(errno) => Err(errno),
        Deed::EndsItself(count) => {
            lessen(k, caller, count);
            Ok(Deleted::SelfEnded(take_out(k, caller)))
        }
        Deed::Removes(target) => Ok(Deleted::Removed(take_out(k, target))),
        Deed::Awaits(target) => {
            let place = Place {
                side: DELETION,
                id: target,
            };
            k.pend(caller, place, false, WAIT_FOREVER);
            Ok(Deleted::Pended)
        }
    }
}
