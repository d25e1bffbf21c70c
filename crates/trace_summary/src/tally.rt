//! What is counted of a run, line by line.

ghost use Rattle.std.specs.Prelude.{◌≡◌, ◌≤◌, ◌==◌, ℕ, true, List, [], length, map, IfOk, IfSome, OnOk};
ghost use Rattle.std.specs.List.{list_any};
ghost use Rattle.id_table.specs.Records.{StandsAt};
ghost use Rattle.wind_base.specs.Limits.{longest_short_name};
ghost use Rattle.board_changes.specs.declared.view.TaskView.{TaskView};
ghost use Rattle.board_trace.specs.Runs.{Line, with_line};
ghost use Rattle.trace_summary.specs.Adding.{added, are_distinct, tally_id, timed, with_counts, with_task};
ghost use Rattle.trace_summary.specs.Noting.{noted};
ghost use Rattle.trace_summary.specs.Keeping.{KeepsTimes};
ghost use Rattle.trace_summary.specs.Times.{SpanLists};
ghost use Rattle.trace_summary.specs.Figures.{calls_in as calls_in_lem, idle_in as idle_in_lem, ticks_in as ticks_in_lem};
ghost use Rattle.trace_summary.specs.Summaries.{summary_of, summary_state, tally_of, tally_state};

use crate::counts::{TaskCounts, counts_in, none};
use crate::list::push;
use crate::summary::{Summary, TaskSummary};
use crate::times::LongestTimes;
use crate::usage::{Usage, add_usage, closed_uses};
use board_changes::TaskView;
use board_trace::{Happening, Subject, subject_of};
use std::alloc::Global;
use wind_base::{NoMemory, ShortName};

/// A task of a run, and what was counted of it.
#[derive(Drop)]
struct TaskTally {
    id: u32,
    name: ShortName,
    counts: TaskCounts,
}

/// What was counted of a run so far.
#[derive(Drop)]
pub struct Tally {
    ticks: u64,
    calls: u64,
    idle: u64,
    tasks: Vec<TaskTally>,
    uses: Vec<Usage>,
}

// One for a tick.
fn ticks_in(happening: &Happening) -> u64
    ensures { result ≡ ticks_in_lem happening.now }
{
    match happening {
        Happening::Tick { .. } => 1,
        _ => 0,
    }
}

// One for a call.
fn calls_in(happening: &Happening) -> u64
    ensures { result ≡ calls_in_lem happening.now }
{
    match happening {
        Happening::Called { .. } => 1,
        _ => 0,
    }
}

// How long nobody runs in a step that begins at this board time.
fn idle_in(time: u128, happening: &Happening) -> u64
    ensures { result ≡ idle_in_lem time happening.now }
{
    match happening {
        Happening::Jump { time: end } => u128::from(*end).saturating_sub(time) as u64,
        _ => 0,
    }
}

// The task with this id is among these.
fn has_task(tasks: &[TaskTally], id: u32) -> bool
    ensures { result ≡ list_any (λ t. t.id == id) tasks.now }
{
    tasks.iter().any(|task| task.id == id)
}

// Adds a task, unless it is among these.
fn add_task(tasks: &mut Vec<TaskTally>, id: u32, name: &[u8]) -> Result<(), NoMemory>
    requires { length name.now ≤ longest_short_name }
    ensures { OnOk result (tasks.new.items ≡ with_task id name.now tasks.old.items) }
{
    if has_task(tasks, id) {
        return Ok(());
    }
    push(
        tasks,
        TaskTally {
            id,
            name: ShortName::cut(name),
            counts: none(),
        },
    )
}

impl TaskTally {
    // Adds these numbers if it is the task with this id.
    fn add(&mut self, id: u32, more: TaskCounts)
        ensures { self.new ≡ added id more self.old }
    {
        if id == self.id {
            self.counts = self.counts.plus(more);
        }
    }
}

// Adds these numbers to those of the task with this id.
fn add_counts(tasks: &mut [TaskTally], id: u32, more: TaskCounts)
    ensures { tasks.new ≡ map (added id more) tasks.old }
{
    for task in tasks.iter_mut() {
        task.add(id, more);
    }
}

// Where the task with this id stands. Ids are never used again, so they rise, and it is found if it
// is there; if they didn't, it might not be found.
fn place_of(tasks: &[TaskTally], id: u32) -> Option<usize>
    ensures { IfSome result (λ place. StandsAt tally_id tasks.now id place) }
{
    let place = tasks.partition_point(|task| task.id < id);
    if place < tasks.len() && tasks[place].id == id {
        return Some(place);
    }
    None
}

// Adds to the numbers of the task with this id, and the task before, unless it is among these.
fn add_to(
    tasks: &mut Vec<TaskTally>,
    id: u32,
    name: &[u8],
    more: TaskCounts,
) -> Result<(), NoMemory>
    requires { length name.now ≤ longest_short_name }
    ensures { OnOk result (are_distinct tasks.old.items ≡ true
        → tasks.new.items ≡ map (added id more) (with_task id name.now tasks.old.items)) }
{
    if let Some(place) = place_of(tasks, id) {
        tasks[place].add(id, more);
        return Ok(());
    }
    add_task(tasks, id, name)?;
    add_counts(tasks, id, more);
    Ok(())
}

// Adds to the numbers of the task that a line tells of.
fn add_told(
    tasks: &mut Vec<TaskTally>,
    who: Subject,
    name: &[u8],
    more: TaskCounts,
) -> Result<(), NoMemory>
    requires { length name.now ≤ longest_short_name }
    ensures { OnOk result (are_distinct tasks.old.items ≡ true
        → tasks.new.items ≡ with_counts who name.now more tasks.old.items) }
{
    match who {
        Subject::Task(id) => add_to(tasks, id, name, more),
        Subject::Board | Subject::Interrupt => Ok(()),
    }
}

// A task with its longest times.
fn with_times(task: &TaskTally, times: &LongestTimes) -> TaskSummary
    ensures { (spans : SpanLists) → KeepsTimes times.now spans → result ≡ timed spans task.now }
{
    TaskSummary {
        id: task.id,
        name: task.name.copied(),
        counts: task.counts,
        times: times.of(task.id),
    }
}

// The tasks with their longest times.
fn summaries(
    alloc: Global,
    tasks: &[TaskTally],
    times: &LongestTimes,
) -> Result<Vec<TaskSummary>, NoMemory>
    ensures { IfOk result (λ v. (spans : SpanLists) → KeepsTimes times.now spans
        → v.items ≡ map (timed spans) tasks.now) }
{
    let mut list = Vec::new(alloc);
    for task in tasks {
        push(&mut list, with_times(task, times))?;
    }
    Ok(list)
}

impl Tally {
    /// Nothing was counted yet of a run that begins with these tasks.
    pub fn new(alloc: Global, views: &[TaskView]) -> Result<Tally, NoMemory>
        ensures { IfOk result (λ t. tally_state t ≡ tally_of views.now []) }
    {
        let mut tasks = Vec::new(alloc);
        for view in views {
            add_task(&mut tasks, view.id.get(), view.name.bytes())?;
        }
        Ok(Tally {
            ticks: 0,
            calls: 0,
            idle: 0,
            tasks,
            uses: Vec::new(alloc),
        })
    }

    // Adds what happens in a step that begins at this board time, to the task with this name.
    fn note(&mut self, time: u128, name: &[u8], happening: &Happening) -> Result<(), NoMemory>
        requires { length name.now ≤ longest_short_name }
        ensures { OnOk result (are_distinct self.old.tasks.items ≡ true
            → tally_state self.new ≡ noted time name.now happening.now (tally_state self.old)) }
    {
        self.ticks = self.ticks.saturating_add(ticks_in(happening));
        self.calls = self.calls.saturating_add(calls_in(happening));
        self.idle = self.idle.saturating_add(idle_in(time, happening));
        add_usage(&mut self.uses, time, happening)?;
        add_told(
            &mut self.tasks,
            subject_of(happening),
            name,
            counts_in(happening),
        )
    }

    /// Adds a line: what happens in a step that begins at this board time, and the name of the task
    /// that it speaks of.
    pub fn add(&mut self, time: u128, name: &[u8], happening: &Happening) -> Result<(), NoMemory>
        requires { length name.now ≤ longest_short_name }
        ensures { OnOk result ((views : List TaskView) (lines : List Line) (step : ℕ)
            → tally_state self.old ≡ tally_of views lines
            → tally_state self.new ≡ tally_of views (with_line (record {
              time = time;
              step = step;
              name = name.now;
              what = happening.now;
            }) lines)) }
    {
        self.note(time, name, happening)
    }

    /// The figures of a run with these longest times that ends at this board time after this many
    /// steps.
    pub fn finish(
        &self,
        alloc: Global,
        times: &LongestTimes,
        time: u128,
        steps: u64,
    ) -> Result<Summary, NoMemory>
        ensures { IfOk result (λ r. (views : List TaskView) (lines : List Line) (spans : SpanLists)
            → tally_state self.now ≡ tally_of views lines → KeepsTimes times.now spans
            → summary_state r ≡ summary_of views lines spans time steps) }
    {
        let tasks = summaries(alloc, &self.tasks, times)?;
        let uses = closed_uses(alloc, &self.uses, time)?;
        Ok(Summary {
            time,
            steps,
            ticks: self.ticks,
            calls: self.calls,
            idle: self.idle,
            tasks,
            uses,
        })
    }
}
