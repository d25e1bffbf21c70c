//! The texts of changes.

ghost use Rattle.std.specs.Prelude.{◌≡◌, ◌++◌, OnOk};
ghost use Rattle.std.specs.Fmt.{decimal};
ghost use Rattle.board_trace.specs.Errors.{errno_named as errno_named_lem};
ghost use Rattle.trace_text.specs.Changes.{awaited_text, change_text, end_text, error_text, failed_text, inherited_text, normal_text, object_text, priority_text, served_text, sleeps_text, spawned_text, started_text, until_text, until_tick_text, waits_text};

use crate::pieces::{add, add_decimal, add_hex, add_signed, add_with};
use board_changes::{Awaited, Change};
use board_trace::errno_named;
use id_table::Ident;
use wind_base::words::ERROR;
use wind_base::{NoMemory, Pri};

// Adds a text and then an id.
fn add_with_id(text: &mut Vec<u8>, words: &[u8], id: Ident) -> Result<(), NoMemory>
    ensures { OnOk result (text.new.items ≡ text.old.items ++ (words.now ++ decimal id)) }
{
    add_with(text, words, u64::from(id.get()))
}

/// Adds what a task waits for.
pub fn add_awaited(text: &mut Vec<u8>, object: Awaited) -> Result<(), NoMemory>
    ensures { OnOk result (text.new.items ≡ text.old.items ++ awaited_text object) }
{
    match object {
        Awaited::Semaphore(id) => add_with_id(text, b"semaphore ", id),
        Awaited::Mutex(id) => add_with_id(text, b"mutex ", id),
        Awaited::Receiving(id) => add_with_id(text, b"a message of queue ", id),
        Awaited::Sending(id) => add_with_id(text, b"room in queue ", id),
        Awaited::Deletion(id) => add_with_id(text, b"the deletion of task ", id),
        Awaited::Console => add(text, b"the console"),
    }
}

/// Adds until which tick.
pub(crate) fn add_until_tick(text: &mut Vec<u8>, tick: u64) -> Result<(), NoMemory>
    ensures { OnOk result (text.new.items ≡ text.old.items ++ until_tick_text tick) }
{
    add_with(text, b" until tick ", tick)
}

/// Adds until which tick, if there is one.
pub(crate) fn add_until(text: &mut Vec<u8>, until: Option<u64>) -> Result<(), NoMemory>
    ensures { OnOk result (text.new.items ≡ text.old.items ++ until_text until) }
{
    match until {
        Some(tick) => add_until_tick(text, tick),
        None => Ok(()),
    }
}

// Adds that a wait ends.
fn add_end_of_wait(text: &mut Vec<u8>, object: Awaited) -> Result<(), NoMemory>
    ensures { OnOk result (text.new.items ≡ text.old.items ++ end_text object) }
{
    add(text, b"ends its wait for ")?;
    add_awaited(text, object)
}

// Adds an error number, by its name if it has one.
fn add_error(text: &mut Vec<u8>, errno: u32) -> Result<(), NoMemory>
    ensures { OnOk result (text.new.items ≡ text.old.items ++ error_text (errno_named_lem errno) errno) }
{
    match errno_named(errno) {
        Some(errno) => add(text, errno.name().as_bytes()),
        None => add_hex(text, errno),
    }
}

// Adds how a wait ends with ERROR.
fn add_failed(text: &mut Vec<u8>, object: Awaited, errno: u32) -> Result<(), NoMemory>
    ensures { OnOk result (text.new.items ≡ text.old.items ++ failed_text object errno) }
{
    add_end_of_wait(text, object)?;
    add(text, b": ")?;
    add_signed(text, ERROR)?;
    add(text, b" ")?;
    add_error(text, errno)
}

// Adds how a wait ends with another result.
fn add_served(text: &mut Vec<u8>, object: Awaited, answer: u32) -> Result<(), NoMemory>
    ensures { OnOk result (text.new.items ≡ text.old.items ++ served_text object answer) }
{
    add_end_of_wait(text, object)?;
    add(text, b": ")?;
    add_signed(text, answer)
}

// Adds that a priority is inherited, if it is.
fn add_inherited(text: &mut Vec<u8>, inherited: bool) -> Result<(), NoMemory>
    ensures { OnOk result (text.new.items ≡ text.old.items ++ inherited_text inherited) }
{
    if inherited {
        return add(text, b" by inheritance");
    }
    Ok(())
}

// Adds the change of a priority.
fn add_priority(text: &mut Vec<u8>, from: Pri, to: Pri, inherited: bool) -> Result<(), NoMemory>
    ensures { OnOk result (text.new.items ≡ text.old.items ++ priority_text from to inherited) }
{
    add(text, b"priority ")?;
    add_decimal(text, u64::from(from.get()))?;
    add(text, b" -> ")?;
    add_decimal(text, u64::from(to.get()))?;
    add_inherited(text, inherited)
}

// Adds the new normal priority.
fn add_normal(text: &mut Vec<u8>, to: Pri) -> Result<(), NoMemory>
    ensures { OnOk result (text.new.items ≡ text.old.items ++ normal_text to) }
{
    add_with(text, b"normal priority ", u64::from(to.get()))
}

// Adds that something begins for as long as until a tick.
fn add_waits(text: &mut Vec<u8>, object: Awaited, until: Option<u64>) -> Result<(), NoMemory>
    ensures { OnOk result (text.new.items ≡ text.old.items ++ waits_text object until) }
{
    add(text, b"waits for ")?;
    add_awaited(text, object)?;
    add_until(text, until)
}

// Adds what becomes of a watchdog or a module.
fn add_object(text: &mut Vec<u8>, kind: &[u8], id: Ident, what: &[u8]) -> Result<(), NoMemory>
    ensures { OnOk result (text.new.items ≡ text.old.items ++ object_text kind.now id what.now) }
{
    add_with_id(text, kind, id)?;
    add(text, what)
}

// Adds that a watchdog is started.
fn add_started(text: &mut Vec<u8>, watchdog: Ident, due: u64) -> Result<(), NoMemory>
    ensures { OnOk result (text.new.items ≡ text.old.items ++ started_text watchdog due) }
{
    add_object(text, b"watchdog ", watchdog, b" is started, due at tick ")?;
    add_decimal(text, due)
}

// Adds that a task is spawned.
fn add_spawned(text: &mut Vec<u8>, pri: Pri) -> Result<(), NoMemory>
    ensures { OnOk result (text.new.items ≡ text.old.items ++ spawned_text pri) }
{
    add_with(text, b"is spawned with priority ", u64::from(pri.get()))
}

// Adds that a task sleeps.
fn add_sleeps(text: &mut Vec<u8>, until: u64) -> Result<(), NoMemory>
    ensures { OnOk result (text.new.items ≡ text.old.items ++ sleeps_text until) }
{
    add(text, b"sleeps")?;
    add_until_tick(text, until)
}

/// Adds the text of a change.
pub(crate) fn add_change(text: &mut Vec<u8>, change: &Change) -> Result<(), NoMemory>
    ensures { OnOk result (text.new.items ≡ text.old.items ++ change_text change.now) }
{
    match *change {
        Change::Spawned { pri, .. } => add_spawned(text, pri),
        Change::Deleted { .. } => add(text, b"is deleted"),
        Change::Waits { object, until, .. } => add_waits(text, object, until),
        Change::Sleeps { until, .. } => add_sleeps(text, until),
        Change::Served { object, answer, .. } => add_served(text, object, answer),
        Change::Failed { object, errno, .. } => add_failed(text, object, errno),
        Change::GoesOn { object, .. } => add_end_of_wait(text, object),
        Change::Wakes { .. } => add(text, b"wakes"),
        Change::Suspended { .. } => add(text, b"is suspended"),
        Change::Resumed { .. } => add(text, b"is resumed"),
        Change::Priority {
            from,
            to,
            inherited,
            ..
        } => add_priority(text, from, to, inherited),
        Change::Normal { to, .. } => add_normal(text, to),
        Change::Yields { .. } => add(text, b"goes after the others of its priority"),
        Change::Started { watchdog, due } => add_started(text, watchdog, due),
        Change::Fired { watchdog } => add_object(text, b"watchdog ", watchdog, b" fires"),
        Change::Cancelled { watchdog } => {
            add_object(text, b"watchdog ", watchdog, b" is cancelled")
        }
        Change::Loaded { id } => add_object(text, b"module ", id, b" is loaded"),
        Change::Unloaded { id } => add_object(text, b"module ", id, b" is unloaded"),
    }
}
