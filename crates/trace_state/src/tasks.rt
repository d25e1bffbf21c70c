//! The tasks as JSON.

ghost use Rattle.std.specs.Prelude.{◌≡◌, IfOk, OnOk};
ghost use Rattle.serde_json.specs.View.{view};
ghost use Rattle.trace_state.specs.Held.{members_in};
ghost use Rattle.trace_state.specs.Json.{list_of, number_of, number_or_null as number_or_null_lem, with_all};
ghost use Rattle.trace_state.specs.Tasks.{awaited_id as awaited_id_lem, awaited_word as awaited_word_lem, identity, locks, registers_data, routine, task_data, wait_data, waiting};

use crate::json::{Items, Members, id_or_null, number_or_null};
use board_changes::Awaited;
use board_reading::awaited_by;
use kernel_world::{Objects, World};
use serde_json::Value;
use std::alloc::{AllocError, Global};
use task_block::Task;
use wind_base::Regs;

// The word for what is waited for.
fn awaited_word(object: &Awaited) -> &'static str
    ensures { result.now ≡ awaited_word_lem object.now }
{
    match object {
        Awaited::Semaphore(_) => "semaphore",
        Awaited::Mutex(_) => "mutex",
        Awaited::Receiving(_) => "message",
        Awaited::Sending(_) => "room",
        Awaited::Deletion(_) => "deletion",
        Awaited::Console => "console",
    }
}

// The id of what is waited for, or null.
fn awaited_id(object: &Awaited) -> Value
    ensures { view result ≡ number_or_null_lem (awaited_id_lem object.now) }
{
    match object {
        Awaited::Semaphore(id)
        | Awaited::Mutex(id)
        | Awaited::Receiving(id)
        | Awaited::Sending(id)
        | Awaited::Deletion(id) => id_or_null(Some(*id)),
        Awaited::Console => id_or_null(None),
    }
}

/// What a task waits for, or null.
pub fn wait_value(alloc: Global, object: &Option<Awaited>) -> Result<Value, AllocError>
    ensures { IfOk result (λ v. view v ≡ wait_data object.now) }
{
    let Some(object) = object else {
        return Ok(Value::Null);
    };
    let mut members = Members::new(alloc);
    members.put_word("for", awaited_word(object))?;
    members.put("id", awaited_id(object))?;
    Ok(members.finish())
}

// A list of words.
fn words_value(alloc: Global, words: &[u32]) -> Result<Value, AllocError>
    ensures { IfOk result (λ v. view v ≡ list_of number_of words.now) }
{
    let mut items = Items::new(alloc);
    for word in words {
        items.add(Value::from(*word))?;
    }
    Ok(items.finish())
}

// The registers of a task.
fn registers_value(alloc: Global, regs: &Regs) -> Result<Value, AllocError>
    ensures { IfOk result (λ v. view v ≡ registers_data regs.now) }
{
    let general = words_value(alloc, &regs.gpr)?;
    let mut members = Members::new(alloc);
    members.put("gpr", general)?;
    members.put_number("pc", u64::from(regs.pc))?;
    members.put_number("lr", u64::from(regs.lr))?;
    members.put_number("ctr", u64::from(regs.ctr))?;
    members.put_number("cr", u64::from(regs.cr))?;
    members.put_number("xer", u64::from(regs.xer))?;
    Ok(members.finish())
}

// Adds a task's id, name and priorities.
fn add_identity(members: &mut Members, task: &Task) -> Result<(), AllocError>
    ensures { OnOk result (members_in members.new ≡ with_all (identity task.now) (members_in members.old)) }
{
    members.put_number("id", u64::from(task.id.get()))?;
    members.put_text("name", task.name.bytes())?;
    members.put_number("pri", u64::from(task.pri.get()))?;
    members.put_number("normal", u64::from(task.normal.get()))
}

// Adds what a task waits for, and whether it is suspended.
fn add_waiting(
    alloc: Global,
    members: &mut Members,
    objects: &Objects,
    task: &Task,
) -> Result<(), AllocError>
    ensures { OnOk result (members_in members.new ≡ with_all (waiting objects.now task.now) (members_in members.old)) }
{
    let wait = wait_value(alloc, &awaited_by(objects, task))?;
    members.put("wait", wait)?;
    members.put("wake", number_or_null(task.wake))?;
    members.put_flag("suspended", task.suspended)
}

// Adds a task's locks and its error number.
fn add_locks(members: &mut Members, task: &Task) -> Result<(), AllocError>
    ensures { OnOk result (members_in members.new ≡ with_all (locks task.now) (members_in members.old)) }
{
    members.put_number("locks", task.locks)?;
    members.put_number("safe", task.safe)?;
    members.put_flag("int_locked", task.int_locked)?;
    members.put_number("errno", u64::from(task.errno))
}

// Adds a task's routine, stack and registers.
fn add_routine(alloc: Global, members: &mut Members, task: &Task) -> Result<(), AllocError>
    ensures { OnOk result (members_in members.new ≡ with_all (routine task.now) (members_in members.old)) }
{
    let registers = registers_value(alloc, &task.regs)?;
    members.put_number("entry", u64::from(task.entry))?;
    members.put_number("stack", u64::from(task.stack))?;
    members.put_number("stack_size", u64::from(task.stack_size))?;
    members.put("regs", registers)
}

// One task.
fn task_value(alloc: Global, objects: &Objects, task: &Task) -> Result<Value, AllocError>
    ensures { IfOk result (λ v. view v ≡ task_data objects.now task.now) }
{
    let mut members = Members::new(alloc);
    add_identity(&mut members, task)?;
    add_waiting(alloc, &mut members, objects, task)?;
    add_locks(&mut members, task)?;
    add_routine(alloc, &mut members, task)?;
    Ok(members.finish())
}

/// The tasks, by rising id.
pub(crate) fn tasks(alloc: Global, world: &World) -> Result<Value, AllocError>
    ensures { IfOk result (λ v. view v ≡ list_of (task_data world.now.objects) world.now.kern.tasks) }
{
    let mut items = Items::new(alloc);
    for place in 0..world.kern.live() {
        items.add(task_value(alloc, &world.objects, world.kern.task_at(place))?)?;
    }
    Ok(items.finish())
}
