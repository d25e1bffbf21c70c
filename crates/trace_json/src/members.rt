//! The text of a list of objects of the trace-event format, written as they come.

ghost use Rattle.std.specs.Prelude.{◌≡◌, ◌≤◌, ◌∷◌, ◌++◌, [], OnOk};
ghost use Rattle.std.specs.List.{flat_map};
ghost use Rattle.serde_json.specs.{Data.depth, Read.max_depth, View.view};
ghost use Rattle.trace_text.specs.Forms.{Gained};
ghost use Rattle.trace_text.specs.Pages.{is_instructions as is_instructions_lem};
ghost use Rattle.trace_json.specs.Chrome.{AreMembers, FlowFinish, FlowStart, IsLastMember, QueueMessages, ReadyTasks, RoutineSpan, TaskSpan, ThreadName, TraceObject, closing_data, flow_objects, instant_objects, list_opening, name_objects, object_data, opening_objects, spawned_task as spawned_task_lem, task_objects};

use crate::chrome::{
    closing_value, finish_value, instant_value, messages_value, ready_value, routine_value,
    span_value, start_value, thread_value,
};
use board_changes::{Awaited, Change, Span, TaskView};
use board_trace::{Happening, Subject};
use id_table::Ident;
use serde_json::Value;
use std::alloc::Global;
use trace_text::{Moment, add};
use wind_base::NoMemory;

/// Begins a list.
pub fn open_list(text: &mut Vec<u8>) -> Result<(), NoMemory>
    ensures { OnOk result (text.new.items ≡ text.old.items ++ list_opening) }
{
    add(text, b"[\n")
}

// Adds an object that others follow.
fn add_member(alloc: Global, text: &mut Vec<u8>, value: &Value) -> Result<(), NoMemory>
    requires { depth (view value.now) ≤ max_depth }
    ensures { OnOk result ((object : TraceObject) → view value.now ≡ object_data object
        → Gained (AreMembers (object ∷ [])) text.old.items text.new.items) }
{
    let object = value.to_vec(alloc)?;
    add(text, &object)?;
    add(text, b",\n")
}

// Adds the name of a thread.
fn add_name(alloc: Global, text: &mut Vec<u8>, thread: u32, name: &[u8]) -> Result<(), NoMemory>
    ensures { OnOk result (Gained (AreMembers (ThreadName thread name.now ∷ [])) text.old.items text.new.items) }
{
    let value = thread_value(alloc, thread, name)?;
    add_member(alloc, text, &value)
}

// Adds the names of the threads of tasks.
fn add_tasks(alloc: Global, text: &mut Vec<u8>, tasks: &[TaskView]) -> Result<(), NoMemory>
    ensures { OnOk result (Gained (AreMembers (flat_map task_objects tasks.now)) text.old.items text.new.items) }
{
    for task in tasks {
        add_name(alloc, text, task.id.get(), task.name.bytes())?;
    }
    Ok(())
}

/// Adds the names of threads before the first step, at which these tasks live.
pub fn add_opening(alloc: Global, text: &mut Vec<u8>, tasks: &[TaskView]) -> Result<(), NoMemory>
    ensures { OnOk result (Gained (AreMembers (opening_objects tasks.now)) text.old.items text.new.items) }
{
    add_name(alloc, text, 0, b"board")?;
    add_tasks(alloc, text, tasks)
}

// The task that a happening spawns.
fn spawned_task(happening: &Happening) -> Option<Ident>
    ensures { result ≡ spawned_task_lem happening.now }
{
    match happening {
        Happening::Changed(Change::Spawned { who, .. }) => Some(*who),
        _ => None,
    }
}

/// Adds the name of the thread of a task, if this happening spawns the task.
pub fn add_spawned(
    alloc: Global,
    text: &mut Vec<u8>,
    happening: &Happening,
    name: &[u8],
) -> Result<(), NoMemory>
    ensures { OnOk result (Gained (AreMembers (name_objects happening.now name.now)) text.old.items text.new.items) }
{
    let Some(who) = spawned_task(happening) else {
        return Ok(());
    };
    add_name(alloc, text, who.get(), name)
}

/// Adds a span of a task.
pub fn add_span(alloc: Global, text: &mut Vec<u8>, span: &Span) -> Result<(), NoMemory>
    ensures { OnOk result (Gained (AreMembers (TaskSpan span.now ∷ [])) text.old.items text.new.items) }
{
    let value = span_value(alloc, span)?;
    add_member(alloc, text, &value)
}

/// Adds a span in which an interrupt routine is active.
pub fn add_routine(alloc: Global, text: &mut Vec<u8>, from: u128, to: u128) -> Result<(), NoMemory>
    ensures { OnOk result (Gained (AreMembers (RoutineSpan from to ∷ [])) text.old.items text.new.items) }
{
    let value = routine_value(alloc, from, to)?;
    add_member(alloc, text, &value)
}

// It is of instructions.
fn is_instructions(happening: &Happening) -> bool
    ensures { result ≡ is_instructions_lem happening.now }
{
    matches!(happening, Happening::Instructions { .. })
}

/// Adds a happening in the step of this moment as an instant, unless it is of instructions.
pub fn add_instant(
    alloc: Global,
    text: &mut Vec<u8>,
    at: Moment,
    happening: &Happening,
) -> Result<(), NoMemory>
    ensures { OnOk result (Gained (AreMembers (instant_objects at.time at.step happening.now))
        text.old.items text.new.items) }
{
    if is_instructions(happening) {
        return Ok(());
    }
    let value = instant_value(alloc, at, happening)?;
    add_member(alloc, text, &value)
}

/// A wait that has ended.
#[derive(Clone, Copy)]
pub struct EndedWait {
    /// The task that waited.
    pub waiter: Ident,
    /// What it waited for.
    pub object: Awaited,
}

/// A wait that ends in a step.
#[derive(Clone, Copy)]
pub struct Flow {
    /// Who ends it.
    pub giver: Subject,
    /// The wait.
    pub wait: EndedWait,
    /// Board time when the step begins.
    pub from: u128,
    /// Board time when it has been made.
    pub to: u128,
}

// Adds the beginning of the flow with this number.
fn add_start(alloc: Global, text: &mut Vec<u8>, number: u64, flow: &Flow) -> Result<(), NoMemory>
    ensures { OnOk result (Gained
        (AreMembers (FlowStart number flow.now.from flow.now.wait.object flow.now.giver ∷ []))
        text.old.items text.new.items) }
{
    let value = start_value(alloc, number, flow.from, flow.wait.object, flow.giver)?;
    add_member(alloc, text, &value)
}

// Adds its end.
fn add_finish(alloc: Global, text: &mut Vec<u8>, number: u64, flow: &Flow) -> Result<(), NoMemory>
    ensures { OnOk result (Gained
        (AreMembers (FlowFinish number flow.now.to flow.now.wait.object flow.now.wait.waiter ∷ []))
        text.old.items text.new.items) }
{
    let value = finish_value(alloc, number, flow.to, flow.wait)?;
    add_member(alloc, text, &value)
}

/// Adds the flow with this number, from whoever ends the wait to the task that waited.
pub fn add_flow(alloc: Global, text: &mut Vec<u8>, number: u64, flow: &Flow) -> Result<(), NoMemory>
    ensures { OnOk result (Gained
        (AreMembers (flow_objects number flow.now.giver flow.now.wait flow.now.from flow.now.to))
        text.old.items text.new.items) }
{
    add_start(alloc, text, number, flow)?;
    add_finish(alloc, text, number, flow)
}

/// Adds how many tasks are ready at this time.
pub fn add_ready(alloc: Global, text: &mut Vec<u8>, time: u128, number: u64) -> Result<(), NoMemory>
    ensures { OnOk result (Gained (AreMembers (ReadyTasks time number ∷ [])) text.old.items text.new.items) }
{
    let value = ready_value(alloc, time, number)?;
    add_member(alloc, text, &value)
}

/// Adds how many messages the queue with this id has at this time.
pub fn add_messages(
    alloc: Global,
    text: &mut Vec<u8>,
    time: u128,
    queue: u32,
    number: u32,
) -> Result<(), NoMemory>
    ensures { OnOk result (Gained (AreMembers (QueueMessages time queue number ∷ [])) text.old.items text.new.items) }
{
    let value = messages_value(alloc, time, queue, number)?;
    add_member(alloc, text, &value)
}

/// Adds the end of a run after the step of this moment, and ends the list.
pub fn close_list(alloc: Global, text: &mut Vec<u8>, at: Moment, how: &[u8]) -> Result<(), NoMemory>
    ensures { OnOk result (Gained (IsLastMember (closing_data at.time at.step how.now)) text.old.items text.new.items) }
{
    let value = closing_value(alloc, at, how)?;
    let object = value.to_vec(alloc)?;
    add(text, &object)?;
    add(text, b"\n]\n")
}
