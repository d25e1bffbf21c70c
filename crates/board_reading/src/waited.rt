//! What a task waits for, from the place at which it waits.

ghost use Rattle.std.specs.Prelude.{◌≡◌, true};
ghost use Rattle.std.specs.Option.{option_map};
ghost use Rattle.board_trace.specs.Waited.{awaited_at as awaited_at_lem, awaited_by as awaited_by_lem, awaited_object as awaited_object_lem};

use board_changes::Awaited;
use id_table::sides::{CONSOLE, DELETION, OBJECT};
use id_table::{Ident, Place};
use kernel_world::Objects;
use task_block::Task;

// What is waited for at the side of an object: a mutex, a message of a queue, or otherwise a
// semaphore.
fn awaited_object(objects: &Objects, id: Ident) -> Awaited
    ensures { result ≡ awaited_object_lem objects.now id }
{
    if objects.mutexes.is_live(id.get()) {
        return Awaited::Mutex(id);
    }
    match objects.queues.count(id.get()) {
        Ok(_) => Awaited::Receiving(id),
        Err(_) => Awaited::Semaphore(id),
    }
}

// What is waited for at a place.
fn awaited_at(objects: &Objects, place: Place) -> Awaited
    ensures { result ≡ awaited_at_lem objects.now place }
{
    if place.side == OBJECT {
        return awaited_object(objects, place.id);
    }
    if place.side == DELETION {
        return Awaited::Deletion(place.id);
    }
    if place.side == CONSOLE {
        return Awaited::Console;
    }
    Awaited::Sending(place.id)
}

/// Whether a task that waits at this place, or doesn't wait, waits for this.
#[inline(always)]
pub(crate) fn is_awaited(objects: &Objects, awaited: Option<Awaited>, place: Option<Place>) -> bool
    ensures { result ≡ true → awaited ≡ option_map (awaited_at_lem objects.now) place }
{
    match (awaited, place) {
        (None, None) => true,
        (Some(awaited), Some(place)) => awaited == awaited_at(objects, place),
        (None, Some(_)) | (Some(_), None) => false,
    }
}

/// What a task waits for, if it waits.
pub fn awaited_by(objects: &Objects, task: &Task) -> Option<Awaited>
    ensures { result ≡ awaited_by_lem objects.now task.now }
{
    match task.wait {
        Some(place) => Some(awaited_at(objects, place)),
        None => None,
    }
}
