//! The figures of a run as JSON.

ghost use Rattle.std.specs.Prelude.{◌≡◌, IfOk, OnOk, codes};
ghost use Rattle.serde_json.specs.View.{view};
ghost use Rattle.trace_state.specs.Board.{IsTextOf};
ghost use Rattle.trace_state.specs.Held.{members_in};
ghost use Rattle.trace_state.specs.Json.{list_of, with_all, with_member};
ghost use Rattle.trace_summary.specs.Data.{call_members, count_members, hold_data, hold_members, holder as holder_lem, longest_members, kind_word as kind_word_lem, move_members, object_in as object_in_lem, run_members, step_members, stretch_data, summary_data, task_data, time_members, usage_data, wait_members};
ghost use Rattle.trace_state.specs.Tasks.{wait_data};
ghost use Rattle.trace_summary.specs.Summaries.{summary_state};
ghost use Rattle.trace_summary.specs.declared.usage.ObjectKind.TheVariants as kinds;

use crate::counts::TaskCounts;
use crate::hold::Hold;
use crate::stretch::Stretch;
use crate::summary::{Summary, TaskSummary, share};
use crate::times::TaskTimes;
use crate::usage::{ObjectKind, Usage};
use board_changes::Awaited;
use serde_json::Value;
use std::alloc::{AllocError, Global};
use trace_state::{Items, Members, number_or_null, time_shown, wait_value};

// Adds the steps of a task, and its share in all steps.
fn add_steps(members: &mut Members, all: u64, counts: &TaskCounts) -> Result<(), AllocError>
    ensures { OnOk result (members_in members.new ≡ with_all (step_members all counts.now) (members_in members.old)) }
{
    members.put_number("steps", counts.steps)?;
    members.put_number("share", share(counts.steps, all))?;
    members.put_number("switches", counts.switches)
}

// Adds the calls and exceptions of a task.
fn add_calls(members: &mut Members, counts: &TaskCounts) -> Result<(), AllocError>
    ensures { OnOk result (members_in members.new ≡ with_all (call_members counts.now) (members_in members.old)) }
{
    members.put_number("calls", counts.calls)?;
    members.put_number("refusals", counts.refusals)?;
    members.put_number("exceptions", counts.exceptions)
}

// A stretch of time, or null.
fn stretch_value(alloc: Global, stretch: &Option<Stretch>) -> Result<Value, AllocError>
    ensures { IfOk result (λ v. view v ≡ stretch_data stretch.now) }
{
    let Some(stretch) = stretch else {
        return Ok(Value::Null);
    };
    let mut members = Members::new(alloc);
    members.put_number("from", time_shown(stretch.from))?;
    members.put_number("time", time_shown(stretch.length()))?;
    Ok(members.finish())
}

// What a task waits for in a stretch.
fn object_in(stretch: &Option<Stretch>) -> Option<Awaited>
    ensures { result ≡ object_in_lem stretch.now }
{
    match stretch {
        Some(stretch) => stretch.object,
        None => None,
    }
}

// Puts a stretch of time at a key.
fn put_stretch(
    members: &mut Members,
    alloc: Global,
    key: &str,
    stretch: &Option<Stretch>,
) -> Result<(), AllocError>
    ensures { OnOk result (members_in members.new
        ≡ with_member key.now (stretch_data stretch.now) (members_in members.old)) }
{
    let value = stretch_value(alloc, stretch)?;
    members.put(key, value)
}

// Puts what a task waits for in a stretch.
fn put_object(
    members: &mut Members,
    alloc: Global,
    wait: &Option<Stretch>,
) -> Result<(), AllocError>
    ensures { OnOk result (members_in members.new
        ≡ with_member (codes "waited_for") (wait_data (object_in_lem wait.now)) (members_in members.old)) }
{
    let object = object_in(wait);
    let value = wait_value(alloc, &object)?;
    members.put("waited_for", value)
}

// Adds the longest wait of a task.
fn add_wait(members: &mut Members, alloc: Global, wait: &Option<Stretch>) -> Result<(), AllocError>
    ensures { OnOk result (members_in members.new ≡ with_all (wait_members wait.now) (members_in members.old)) }
{
    put_stretch(members, alloc, "longest_wait", wait)?;
    put_object(members, alloc, wait)
}

// Adds the other longest times of a task.
fn add_times(members: &mut Members, alloc: Global, times: &TaskTimes) -> Result<(), AllocError>
    ensures { OnOk result (members_in members.new ≡ with_all (time_members times.now) (members_in members.old)) }
{
    put_stretch(members, alloc, "longest_ready", &times.ready)?;
    members.put_number("longest_response", time_shown(times.response))?;
    put_stretch(members, alloc, "longest_inherited", &times.inherited)
}

// Adds what was counted of a task.
fn add_counts(members: &mut Members, all: u64, counts: &TaskCounts) -> Result<(), AllocError>
    ensures { OnOk result (members_in members.new ≡ with_all (count_members all counts.now) (members_in members.old)) }
{
    add_steps(members, all, counts)?;
    add_calls(members, counts)
}

// Adds the longest times of a task.
fn add_longest(members: &mut Members, alloc: Global, times: &TaskTimes) -> Result<(), AllocError>
    ensures { OnOk result (members_in members.new ≡ with_all (longest_members times.now) (members_in members.old)) }
{
    add_wait(members, alloc, &times.wait)?;
    add_times(members, alloc, times)
}

// A task.
fn task_value(alloc: Global, all: u64, task: &TaskSummary) -> Result<Value, AllocError>
    ensures { IfOk result (λ v. view v ≡ task_data all task.now) }
{
    let mut members = Members::new(alloc);
    members.put_number("id", u64::from(task.id))?;
    members.put_text("name", task.name.bytes())?;
    add_counts(&mut members, all, &task.counts)?;
    add_longest(&mut members, alloc, &task.times)?;
    Ok(members.finish())
}

// The tasks.
fn tasks_value(alloc: Global, all: u64, tasks: &[TaskSummary]) -> Result<Value, AllocError>
    ensures { IfOk result (λ v. view v ≡ list_of (task_data all) tasks.now) }
{
    let mut items = Items::new(alloc);
    for task in tasks {
        items.add(task_value(alloc, all, task)?)?;
    }
    Ok(items.finish())
}

// The word for a kind of object.
fn kind_word(kind: ObjectKind) -> &'static str
    ensures { result.now ≡ kind_word_lem kind }
{
    match kind {
        ObjectKind::Mutex => "mutex",
        ObjectKind::Queue => "queue",
        ObjectKind::Slot => "slot",
    }
}

// A hold of a mutex, or null.
fn hold_value(alloc: Global, hold: &Option<Hold>) -> Result<Value, AllocError>
    ensures { IfOk result (λ v. view v ≡ hold_data hold.now) }
{
    let Some(hold) = hold else {
        return Ok(Value::Null);
    };
    let mut members = Members::new(alloc);
    members.put_number("from", time_shown(hold.from))?;
    members.put_number("time", time_shown(hold.length()))?;
    Ok(members.finish())
}

// The task of a hold.
fn holder(hold: &Option<Hold>) -> Option<u64>
    ensures { result ≡ holder_lem hold.now }
{
    match hold {
        Some(hold) => Some(u64::from(hold.owner)),
        None => None,
    }
}

// Adds the longest hold of a mutex, and by which task.
fn add_hold(members: &mut Members, alloc: Global, longest: &Option<Hold>) -> Result<(), AllocError>
    ensures { OnOk result (members_in members.new
        ≡ with_all (hold_members kinds.Mutex longest.now) (members_in members.old)) }
{
    let value = hold_value(alloc, longest)?;
    members.put("longest_hold", value)?;
    members.put("held_by", number_or_null(holder(longest)))
}

// Adds the longest hold of an object, if it is a mutex.
fn add_hold_of(members: &mut Members, alloc: Global, usage: &Usage) -> Result<(), AllocError>
    ensures { OnOk result (members_in members.new
        ≡ with_all (hold_members usage.now.object.kind usage.now.longest) (members_in members.old)) }
{
    match usage.object.kind {
        ObjectKind::Mutex => add_hold(members, alloc, &usage.longest),
        ObjectKind::Queue | ObjectKind::Slot => Ok(()),
    }
}

// Adds what came to an object and left it.
fn add_moves(members: &mut Members, usage: &Usage) -> Result<(), AllocError>
    ensures { OnOk result (members_in members.new ≡ with_all (move_members usage.now) (members_in members.old)) }
{
    members.put_word("object", kind_word(usage.object.kind))?;
    members.put_number("id", u64::from(usage.object.id))?;
    members.put_number("in", usage.entries)?;
    members.put_number("out", usage.exits)?;
    members.put_number("most", usage.most)
}

// How an object was used.
fn usage_value(alloc: Global, usage: &Usage) -> Result<Value, AllocError>
    ensures { IfOk result (λ v. view v ≡ usage_data usage.now) }
{
    let mut members = Members::new(alloc);
    add_moves(&mut members, usage)?;
    add_hold_of(&mut members, alloc, usage)?;
    Ok(members.finish())
}

// How objects were used.
fn uses_value(alloc: Global, uses: &[Usage]) -> Result<Value, AllocError>
    ensures { IfOk result (λ v. view v ≡ list_of usage_data uses.now) }
{
    let mut items = Items::new(alloc);
    for usage in uses {
        items.add(usage_value(alloc, usage)?)?;
    }
    Ok(items.finish())
}

// Adds the figures of the run.
fn add_run(members: &mut Members, summary: &Summary) -> Result<(), AllocError>
    ensures { OnOk result (members_in members.new
        ≡ with_all (run_members (summary_state summary.now)) (members_in members.old)) }
{
    members.put_number("time", time_shown(summary.time))?;
    members.put_number("steps", summary.steps)?;
    members.put_number("ticks", summary.ticks)?;
    members.put_number("calls", summary.calls)?;
    members.put_number("idle", summary.idle)
}

// The run, its tasks and its objects.
fn summary_value(alloc: Global, summary: &Summary) -> Result<Value, AllocError>
    ensures { IfOk result (λ v. view v ≡ summary_data (summary_state summary.now)) }
{
    let mut members = Members::new(alloc);
    add_run(&mut members, summary)?;
    let tasks = tasks_value(alloc, summary.steps, &summary.tasks)?;
    members.put("tasks", tasks)?;
    let uses = uses_value(alloc, &summary.uses)?;
    members.put("objects", uses)?;
    Ok(members.finish())
}

/// The text of the figures as JSON, with a newline at its end.
pub fn summary_text(alloc: Global, summary: &Summary) -> Result<Vec<u8>, AllocError>
    ensures { IfOk result (λ text. IsTextOf text.items (summary_data (summary_state summary.now))) }
{
    let mut text = summary_value(alloc, summary)?.to_vec_pretty(alloc)?;
    text.push(b'\n')?;
    Ok(text)
}
