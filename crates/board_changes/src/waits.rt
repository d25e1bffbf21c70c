//! How a task's wait or sleep begins and ends.

ghost use Rattle.std.specs.Prelude.{◌≡◌, ◌++◌, ◌∷◌, [], None, OnOk, if◌then◌else◌};
ghost use Rattle.board_changes.specs.Listed.{listed};
ghost use Rattle.board_changes.specs.Tasks.{begins as begins_lem, ends as ends_lem, has_result as has_result_lem, id_of as id_of_lem, kind_of as kind_of_lem, other_wait, same_awaited as same_awaited_lem, same_tick as same_tick_lem, same_wait as same_wait_lem, sleep_changes, wait_changes};

use crate::awaited::Awaited;
use crate::change::Change;
use crate::list::{add, add_if};
use crate::view::TaskView;
use id_table::Ident;
use wind_base::NoMemory;
use wind_base::words::ERROR;

// The task begins to wait for something.
fn begins(after: &TaskView, object: Awaited) -> Change
    ensures { result ≡ begins_lem after.now object }
{
    Change::Waits {
        who: after.id,
        object,
        until: after.wake,
    }
}

// Whether the end of such a wait gives the task's call a result.
fn has_result(object: Awaited) -> bool
    ensures { result ≡ has_result_lem object }
{
    match object {
        Awaited::Semaphore(_) | Awaited::Mutex(_) | Awaited::Receiving(_) | Awaited::Sending(_) =>
            true,
        Awaited::Deletion(_) | Awaited::Console => false,
    }
}

// The task's wait has ended.
fn ends(results: bool, after: &TaskView, object: Awaited) -> Change
    ensures { result ≡ ends_lem results after.now object }
{
    let who = after.id;
    if !(results && has_result(object)) {
        return Change::GoesOn { who, object };
    }
    if after.answer == ERROR {
        return Change::Failed {
            who,
            object,
            errno: after.errno,
        };
    }
    Change::Served {
        who,
        object,
        answer: after.answer,
    }
}

// The number of a kind of wait.
fn kind_of(object: &Awaited) -> u8
    ensures { result ≡ kind_of_lem object.now }
{
    match object {
        Awaited::Semaphore(_) => 0,
        Awaited::Mutex(_) => 1,
        Awaited::Receiving(_) => 2,
        Awaited::Sending(_) => 3,
        Awaited::Deletion(_) => 4,
        Awaited::Console => 5,
    }
}

// The id of what is waited for; 0 for the console.
fn id_of(object: &Awaited) -> u32
    ensures { result ≡ id_of_lem object.now }
{
    match object {
        Awaited::Semaphore(id)
        | Awaited::Mutex(id)
        | Awaited::Receiving(id)
        | Awaited::Sending(id)
        | Awaited::Deletion(id) => id.get(),
        Awaited::Console => 0,
    }
}

// Whether two tasks wait for the same.
fn same_awaited(one: &Awaited, other: &Awaited) -> bool
    ensures { result ≡ same_awaited_lem one.now other.now }
{
    kind_of(one) == kind_of(other) && id_of(one) == id_of(other)
}

/// Whether two tasks wait for the same, or neither waits.
pub(crate) fn same_wait(one: &Option<Awaited>, other: &Option<Awaited>) -> bool
    ensures { result ≡ same_wait_lem one.now other.now }
{
    match (one, other) {
        (None, None) => true,
        (Some(one), Some(other)) => same_awaited(one, other),
        (None, Some(_)) | (Some(_), None) => false,
    }
}

/// Whether two ticks are the same, or both are none.
pub(crate) fn same_tick(one: Option<u64>, other: Option<u64>) -> bool
    ensures { result ≡ same_tick_lem one other }
{
    match (one, other) {
        (None, None) => true,
        (Some(one), Some(other)) => one == other,
        (None, Some(_)) | (Some(_), None) => false,
    }
}

// The beginning or the end of a sleep.
fn sleep_change(who: Ident, before: Option<u64>, after: Option<u64>) -> Option<Change>
    ensures { listed result ≡ sleep_changes who before after }
{
    match (before, after) {
        (None, None) => None,
        (None, Some(until)) => Some(Change::Sleeps { who, until }),
        (Some(_), None) => Some(Change::Wakes { who }),
        (Some(old), Some(until)) => {
            if old == until {
                return None;
            }
            Some(Change::Sleeps { who, until })
        }
    }
}

// The sleep that begins as a wait ends, if one does.
fn next_sleep(after: &TaskView) -> Option<Change>
    ensures { listed result ≡ sleep_changes after.now.id None after.now.wake }
{
    match after.wake {
        Some(until) => Some(Change::Sleeps {
            who: after.id,
            until,
        }),
        None => None,
    }
}

// A wait has ended.
fn add_end(
    list: &mut Vec<Change>,
    results: bool,
    after: &TaskView,
    object: Awaited,
) -> Result<(), NoMemory>
    ensures { OnOk result (list.new.items
        ≡ list.old.items ++ ends_lem results after.now object ∷ sleep_changes after.now.id None after.now.wake) }
{
    add(list, ends(results, after, object))?;
    add_if(list, next_sleep(after))
}

// A wait for one thing has ended, and one for another has begun, unless they are the same.
fn add_other_wait(
    list: &mut Vec<Change>,
    results: bool,
    after: &TaskView,
    old: Awaited,
    object: Awaited,
    same: bool,
) -> Result<(), NoMemory>
    ensures { OnOk result (list.new.items
        ≡ list.old.items ++ (if same then [] else other_wait results after.now old object)) }
{
    if same {
        return Ok(());
    }
    add(list, ends(results, after, old))?;
    add(list, begins(after, object))
}

/// Adds the beginning or the end of a task's wait or sleep.
pub(crate) fn add_wait_changes(
    list: &mut Vec<Change>,
    results: bool,
    before: &TaskView,
    after: &TaskView,
) -> Result<(), NoMemory>
    ensures { OnOk result (list.new.items ≡ list.old.items ++ wait_changes results before.now after.now) }
{
    let same = same_wait(&before.wait, &after.wait) && same_tick(before.wake, after.wake);
    match (before.wait, after.wait) {
        (None, None) => add_if(list, sleep_change(after.id, before.wake, after.wake)),
        (None, Some(object)) => add(list, begins(after, object)),
        (Some(object), None) => add_end(list, results, after, object),
        (Some(old), Some(object)) => add_other_wait(list, results, after, old, object, same),
    }
}
