//! The calls on semaphores and mutexes, and taskPrioritySet.

ghost use Rattle.std.specs.Prelude.{◌≡◌, true, false};
ghost use Rattle.wind_core.specs.State.{Lives};
ghost use Rattle.kernel_world.specs.{SemPlainState.{IsEarly as PlainEarly, may_hold}, SemPlainCalls.new_semaphore};
ghost use Rattle.kernel_world.specs.SemMutexKept.{FewSafe, FewSinces, IsEarly, KeepsMutexes};
ghost use Rattle.kernel_world.specs.Actors.{Acts, target as target_lem};
ghost use Rattle.call_rows.specs.SemRows.{row_of, mutexes, IdsAreNew, made, binary_row, counting_row, mutex_row, plain_take, mutex_take, take_row, plain_give, mutex_give, give_row, flush_row, delete_row, priority_row};

use id_table::Ident;
use kernel_world::{Actor, DONE, Objects, Reply, target};
use wind_base::{Errno, Pri, SemKind, SemOptions};
use wind_core::{Kern, Took};

// Makes a semaphore, unless no more may live or no id is left.
fn make(
    kern: &mut Kern,
    objects: &mut Objects,
    kind: SemKind,
    options: SemOptions,
    count: u32,
) -> Reply
    requires count { may_hold kind count ≡ true }
    requires ids { IdsAreNew kern.old objects.old.semaphores }
    ensures row { row_of kern.new objects.new result
        ≡ made kern.old objects.old (new_semaphore kind options count) }
{
    match objects.semaphores.create(kern, kind, options, count) {
        Ok(id) => Reply::Answer(id.get()),
        Err(errno) => Reply::Refusal(errno),
    }
}

/// semBCreate: makes a binary semaphore with these options, in state 0 or 1. Refused if an option
/// isn't allowed, if the state is another, if no more semaphores may live, or if no id is left.
pub fn create_binary(kern: &mut Kern, objects: &mut Objects, options: u32, state: u32) -> Reply
    requires ids { IdsAreNew kern.old objects.old.semaphores }
    ensures row { row_of kern.new objects.new result ≡ binary_row kern.old objects.old options state }
{
    let Some(options) = SemOptions::read(options, SemKind::Binary) else {
        return Reply::Refusal(Errno::InvalidOption);
    };
    if state > 1 {
        return Reply::Refusal(Errno::InvalidState);
    }
    make(kern, objects, SemKind::Binary, options, state)
}

/// semCCreate: makes a counting semaphore with these options and this count. Refused if an option
/// isn't allowed, if no more semaphores may live, or if no id is left.
pub fn create_counting(kern: &mut Kern, objects: &mut Objects, options: u32, count: u32) -> Reply
    requires ids { IdsAreNew kern.old objects.old.semaphores }
    ensures row { row_of kern.new objects.new result ≡ counting_row kern.old objects.old options count }
{
    let Some(options) = SemOptions::read(options, SemKind::Counting) else {
        return Reply::Refusal(Errno::InvalidOption);
    };
    make(kern, objects, SemKind::Counting, options, count)
}

/// semMCreate: makes a mutex with these options. Refused if an option isn't allowed, if no more
/// mutexes may live, or if no id is left.
pub fn create_mutex(kern: &mut Kern, objects: &mut Objects, options: u32) -> Reply
    requires home { kern.old.lent ≡ false }
    requires kept { KeepsMutexes (mutexes kern.old objects.old) }
    ensures row { row_of kern.new objects.new result ≡ mutex_row kern.old objects.old options }
{
    let Some(options) = SemOptions::read(options, SemKind::Mutex) else {
        return Reply::Refusal(Errno::InvalidOption);
    };
    match objects.mutexes.create(kern, options) {
        Ok(id) => Reply::Answer(id.get()),
        Err(errno) => Reply::Refusal(errno),
    }
}

// semTake of a semaphore
fn take_plain(kern: &mut Kern, objects: &mut Objects, who: Ident, id: u32, timeout: u32) -> Reply
    requires live { Lives kern.old who }
    requires early { PlainEarly kern.old }
    ensures row { row_of kern.new objects.new result ≡ plain_take kern.old objects.old who id timeout }
{
    match objects.semaphores.take(kern, who, id, timeout) {
        Ok(Took::Taken) => DONE,
        Ok(Took::Pended) => Reply::Later,
        Err(errno) => Reply::Refusal(errno),
    }
}

// semTake of a mutex
fn take_mutex(kern: &mut Kern, objects: &mut Objects, who: Ident, id: u32, timeout: u32) -> Reply
    requires live { Lives kern.old who }
    requires kept { KeepsMutexes (mutexes kern.old objects.old) }
    requires early { IsEarly (mutexes kern.old objects.old) }
    ensures row { row_of kern.new objects.new result ≡ mutex_take kern.old objects.old who id timeout }
{
    match objects.mutexes.take(kern, who, id, timeout) {
        Ok(Took::Taken) => DONE,
        Ok(Took::Pended) => Reply::Later,
        Err(errno) => Reply::Refusal(errno),
    }
}

/// semTake, from a task: takes the semaphore or mutex with this id, or waits for it, with or
/// without a timeout in ticks. Refused at interrupt level, if no such object lives, or if the task
/// would have to wait and may not.
pub fn take(kern: &mut Kern, objects: &mut Objects, who: Actor, id: u32, timeout: u32) -> Reply
    requires live { Acts kern.old who }
    requires kept { KeepsMutexes (mutexes kern.old objects.old) }
    requires early { IsEarly (mutexes kern.old objects.old) }
    ensures row { row_of kern.new objects.new result ≡ take_row kern.old objects.old who id timeout }
{
    let Actor::Task(who) = who else {
        return Reply::Refusal(Errno::NotIsrCallable);
    };
    if objects.mutexes.is_live(id) {
        take_mutex(kern, objects, who, id, timeout)
    } else {
        take_plain(kern, objects, who, id, timeout)
    }
}

// semGive of a semaphore
fn give_plain(kern: &mut Kern, objects: &mut Objects, id: u32) -> Reply
    requires early { PlainEarly kern.old }
    ensures row { row_of kern.new objects.new result ≡ plain_give kern.old objects.old id }
{
    match objects.semaphores.give(kern, id) {
        Ok(()) => DONE,
        Err(errno) => Reply::Refusal(errno),
    }
}

// semGive of a mutex
fn give_mutex(kern: &mut Kern, objects: &mut Objects, who: Ident, id: u32) -> Reply
    requires live { Lives kern.old who }
    requires kept { KeepsMutexes (mutexes kern.old objects.old) }
    requires since { FewSinces kern.old }
    requires safe { FewSafe kern.old }
    ensures row { row_of kern.new objects.new result ≡ mutex_give kern.old objects.old who id }
{
    match objects.mutexes.give(kern, who, id) {
        Ok(()) => DONE,
        Err(errno) => Reply::Refusal(errno),
    }
}

/// semGive: gives the semaphore or mutex with this id to the first task that waits for it; if none
/// waits, it is free. Refused if no such object lives. A mutex is also refused at interrupt level
/// and to a task that doesn't own it.
pub fn give(kern: &mut Kern, objects: &mut Objects, who: Actor, id: u32) -> Reply
    requires live { Acts kern.old who }
    requires kept { KeepsMutexes (mutexes kern.old objects.old) }
    requires early { IsEarly (mutexes kern.old objects.old) }
    ensures row { row_of kern.new objects.new result ≡ give_row kern.old objects.old who id }
{
    if !objects.mutexes.is_live(id) {
        return give_plain(kern, objects, id);
    }
    match who {
        Actor::Task(who) => give_mutex(kern, objects, who, id),
        Actor::Interrupt => Reply::Refusal(Errno::NotIsrCallable),
    }
}

/// semFlush: all tasks that wait for a semaphore go on. Refused for a mutex, and if no such
/// semaphore lives.
pub fn flush(kern: &mut Kern, objects: &mut Objects, id: u32) -> Reply
    requires early { PlainEarly kern.old }
    ensures row { row_of kern.new objects.new result ≡ flush_row kern.old objects.old id }
{
    if objects.mutexes.is_live(id) {
        return Reply::Refusal(Errno::InvalidOperation);
    }
    match objects.semaphores.flush(kern, id) {
        Ok(()) => DONE,
        Err(errno) => Reply::Refusal(errno),
    }
}

/// semDelete: deletes the semaphore or mutex with this id; all tasks that wait for it go on.
/// Refused if no such object lives.
pub fn delete(kern: &mut Kern, objects: &mut Objects, id: u32) -> Reply
    requires kept { KeepsMutexes (mutexes kern.old objects.old) }
    requires early { IsEarly (mutexes kern.old objects.old) }
    ensures row { row_of kern.new objects.new result ≡ delete_row kern.old objects.old id }
{
    let deleted = if objects.mutexes.is_live(id) {
        objects.mutexes.delete(kern, id)
    } else {
        objects.semaphores.delete(kern, id)
    };
    match deleted {
        Ok(()) => DONE,
        Err(errno) => Reply::Refusal(errno),
    }
}

/// taskPrioritySet: sets the priority of a task, 0 to 255. Refused if no such task lives, then if
/// the priority is above 255.
pub fn set_priority(kern: &mut Kern, objects: &mut Objects, who: Actor, id: u32, pri: u32) -> Reply
    requires live { Acts kern.old who }
    requires kept { KeepsMutexes (mutexes kern.old objects.old) }
    requires since { FewSinces kern.old }
    ensures row { row_of kern.new objects.new result
        ≡ priority_row kern.old objects.old pri (target_lem kern.old who id) }
{
    let Some(id) = target(kern, who, id) else {
        return Reply::Refusal(Errno::ObjIdError);
    };
    let Some(pri) = Pri::new(pri) else {
        return Reply::Refusal(Errno::IllegalPriority);
    };
    objects.mutexes.priority_set(kern, id, pri);
    DONE
}
