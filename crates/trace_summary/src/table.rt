//! The figures of a run as tables.

use crate::hold::Hold;
use crate::stretch::Stretch;
use crate::summary::{Summary, TaskSummary, share};
use crate::usage::{Object, ObjectKind, Usage};
use std::alloc::Global;
use trace_text::{add, add_awaited, add_decimal, add_escaped, add_wide};
use wind_base::NoMemory;

// The columns are so wide.
const WIDTH: usize = 12;

// The heads of the columns of the first table, after which the task comes.
const HEADS: [&str; 6] = [
    "steps",
    "share",
    "switches",
    "calls",
    "refusals",
    "exceptions",
];

// Those of the second table.
const TIME_HEADS: [&str; 4] = ["wait", "ready", "response", "inherited"];

// Those of the third table, after which the object comes.
const USE_HEADS: [&str; 4] = ["in", "out", "most", "hold"];

// Adds spaces, so that what begins at `start` fills its column.
fn fill(text: &mut Vec<u8>, start: usize) -> Result<(), NoMemory> {
    let filled = text.len().saturating_sub(start);
    for _ in filled..WIDTH {
        add(text, b" ")?;
    }
    Ok(())
}

// Adds a number in its column.
fn add_number(text: &mut Vec<u8>, number: u64) -> Result<(), NoMemory> {
    let start = text.len();
    add_decimal(text, number)?;
    fill(text, start)
}

// Adds a share in its column, in percent.
fn add_share(text: &mut Vec<u8>, tenths: u64) -> Result<(), NoMemory> {
    let start = text.len();
    add_decimal(text, tenths / 10)?;
    add(text, b".")?;
    add_decimal(text, tenths % 10)?;
    add(text, b"%")?;
    fill(text, start)
}

// Adds the heads of the columns, and that of the last one.
fn add_heads(text: &mut Vec<u8>, heads: &[&str], last: &str) -> Result<(), NoMemory> {
    for head in heads {
        let start = text.len();
        add(text, head.as_bytes())?;
        fill(text, start)?;
    }
    add(text, last.as_bytes())?;
    add(text, b"\n")
}

// Adds a time in its column.
fn add_time(text: &mut Vec<u8>, time: u128) -> Result<(), NoMemory> {
    let start = text.len();
    add_wide(text, time)?;
    fill(text, start)
}

// Adds the length of a stretch in its column, or 0.
fn add_stretch(text: &mut Vec<u8>, stretch: &Option<Stretch>) -> Result<(), NoMemory> {
    match stretch {
        Some(stretch) => add_time(text, stretch.length()),
        None => add_time(text, 0),
    }
}

// Adds a task, by its id and name.
fn add_name(text: &mut Vec<u8>, task: &TaskSummary) -> Result<(), NoMemory> {
    add_decimal(text, u64::from(task.id))?;
    add(text, b" ")?;
    add_escaped(text, task.name.bytes())
}

// Adds what the task waited for in its longest wait, if it waited.
fn add_object(text: &mut Vec<u8>, wait: &Option<Stretch>) -> Result<(), NoMemory> {
    let Some(wait) = wait else {
        return Ok(());
    };
    let Some(object) = wait.object else {
        return Ok(());
    };
    add(text, b", waited for ")?;
    add_awaited(text, object)
}

// Adds the row of a task's longest times.
fn add_times(text: &mut Vec<u8>, task: &TaskSummary) -> Result<(), NoMemory> {
    add_stretch(text, &task.times.wait)?;
    add_stretch(text, &task.times.ready)?;
    add_time(text, task.times.response)?;
    add_stretch(text, &task.times.inherited)?;
    add_name(text, task)?;
    add_object(text, &task.times.wait)?;
    add(text, b"\n")
}

// Adds the row of a task; `all` are the steps of the run.
fn add_task(text: &mut Vec<u8>, all: u64, task: &TaskSummary) -> Result<(), NoMemory> {
    let counts = task.counts;
    add_number(text, counts.steps)?;
    add_share(text, share(counts.steps, all))?;
    add_number(text, counts.switches)?;
    add_number(text, counts.calls)?;
    add_number(text, counts.refusals)?;
    add_number(text, counts.exceptions)?;
    add_name(text, task)?;
    add(text, b"\n")
}

// Adds a figure of the run.
fn add_figure(text: &mut Vec<u8>, name: &str, number: u64) -> Result<(), NoMemory> {
    add(text, name.as_bytes())?;
    add(text, b" ")?;
    add_decimal(text, number)
}

// Adds the figures of the run.
fn add_run(text: &mut Vec<u8>, summary: &Summary) -> Result<(), NoMemory> {
    add(text, b"time ")?;
    add_wide(text, summary.time)?;
    add_figure(text, ", steps", summary.steps)?;
    add_figure(text, ", ticks", summary.ticks)?;
    add_figure(text, ", calls", summary.calls)?;
    add_figure(text, ", idle", summary.idle)?;
    add(text, b"\n")
}

// Adds the table of what was counted of each task.
fn add_counts(text: &mut Vec<u8>, summary: &Summary) -> Result<(), NoMemory> {
    add_heads(text, &HEADS, "task")?;
    for task in &summary.tasks {
        add_task(text, summary.steps, task)?;
    }
    Ok(())
}

// Adds the table of the longest times of each task.
fn add_longest(text: &mut Vec<u8>, tasks: &[TaskSummary]) -> Result<(), NoMemory> {
    add_heads(text, &TIME_HEADS, "task")?;
    for task in tasks {
        add_times(text, task)?;
    }
    Ok(())
}

// Adds a mutex, a queue or a slot.
fn add_object_name(text: &mut Vec<u8>, object: Object) -> Result<(), NoMemory> {
    match object.kind {
        ObjectKind::Mutex => add(text, b"mutex ")?,
        ObjectKind::Queue => add(text, b"queue ")?,
        ObjectKind::Slot => add(text, b"slot ")?,
    }
    add_decimal(text, u64::from(object.id))
}

// Adds the length of a hold in its column, or 0.
fn add_hold(text: &mut Vec<u8>, hold: &Option<Hold>) -> Result<(), NoMemory> {
    match hold {
        Some(hold) => add_time(text, hold.length()),
        None => add_time(text, 0),
    }
}

// Adds the task of a hold, if there is one.
fn add_holder(text: &mut Vec<u8>, hold: &Option<Hold>) -> Result<(), NoMemory> {
    let Some(hold) = hold else {
        return Ok(());
    };
    add(text, b", held by ")?;
    add_decimal(text, u64::from(hold.owner))
}

// Adds the row of an object.
fn add_usage(text: &mut Vec<u8>, usage: &Usage) -> Result<(), NoMemory> {
    add_number(text, usage.entries)?;
    add_number(text, usage.exits)?;
    add_number(text, usage.most)?;
    add_hold(text, &usage.longest)?;
    add_object_name(text, usage.object)?;
    add_holder(text, &usage.longest)?;
    add(text, b"\n")
}

// Adds the table of how objects were used.
fn add_uses(text: &mut Vec<u8>, uses: &[Usage]) -> Result<(), NoMemory> {
    add_heads(text, &USE_HEADS, "object")?;
    for usage in uses {
        add_usage(text, usage)?;
    }
    Ok(())
}

/// The text of the figures as three tables: the first two have a row for each task, the third one
/// for each object.
pub fn table_text(alloc: Global, summary: &Summary) -> Result<Vec<u8>, NoMemory> {
    let mut text = Vec::new(alloc);
    add_run(&mut text, summary)?;
    add_counts(&mut text, summary)?;
    add_longest(&mut text, &summary.tasks)?;
    add_uses(&mut text, &summary.uses)?;
    Ok(text)
}
