//! What counters count: ready tasks, and the messages of each queue.

ghost use Rattle.std.specs.Prelude.{◌≡◌, ◌++◌, ◌∷◌, [], OnOk, IfOk};
ghost use Rattle.wind_session.specs.BoardPlayerSeen.{seen};
ghost use Rattle.trace_session.specs.Counters.{is_ready as is_ready_lem, queue_counts, ready_in as ready_in_lem};

use board_changes::TaskView;
use std::alloc::Global;
use std::mem;
use wind_base::NoMemory;
use wind_outside::Device;
use wind_session::Board;

/// How many messages a queue has.
#[derive(Clone, Copy)]
pub(crate) struct QueueCount {
    /// The queue's id.
    pub(crate) queue: u32,
    /// How many messages it has.
    pub(crate) messages: u32,
}

/// The numbers of counters.
#[derive(Clone, Copy)]
pub(crate) struct Counts<'a> {
    /// How many tasks are ready, if that was counted.
    pub(crate) ready: Option<u64>,
    /// The messages of each queue.
    pub(crate) queues: &'a [QueueCount],
}

// Whether a task is ready.
fn is_ready(view: &TaskView) -> bool
    ensures { result ≡ is_ready_lem view.now }
{
    !(view.suspended || view.wait.is_some() || view.wake.is_some())
}

/// How many of these tasks are ready; the task that runs is one of them.
pub(crate) fn ready_in(tasks: &[TaskView]) -> u64
    ensures { result ≡ ready_in_lem tasks.now }
{
    tasks.iter().filter(|view| is_ready(view)).count() as u64
}

// Adds a count at the end.
fn add_count(counts: &mut Vec<QueueCount>, count: QueueCount) -> Result<(), NoMemory>
    ensures { OnOk result (counts.new.items ≡ counts.old.items ++ count ∷ []) }
{
    if counts.push(count).is_err() {
        return Err(NoMemory);
    }
    Ok(())
}

// Counts the messages of each queue of a board.
fn take_counts(counts: &mut Vec<QueueCount>, board: &Board) -> Result<(), NoMemory>
    ensures { OnOk result (counts.new.items ≡ queue_counts (seen ⟦<dyn Device as Device>⟧ board.now).world) }
{
    counts.clear();
    let queues = board.world().objects.queues.table();
    for place in 0..queues.len() {
        let count = QueueCount {
            queue: queues.id_at(place).get(),
            messages: queues.value_at(place).count(),
        };
        add_count(counts, count)?;
    }
    Ok(())
}

/// Counts the messages of each queue, before and after each step.
#[derive(Drop)]
pub(crate) struct QueueReader {
    /// The counts before the next step.
    pub(crate) before: Vec<QueueCount>,
    /// The counts after the last step that was read.
    pub(crate) after: Vec<QueueCount>,
}

impl QueueReader {
    /// A reader of a board before its first step.
    pub(crate) fn new(alloc: Global, board: &Board) -> Result<QueueReader, NoMemory>
        ensures { IfOk result (λ r. r.before.items ≡ queue_counts (seen ⟦<dyn Device as Device>⟧ board.now).world) }
    {
        let mut before = Vec::new(alloc);
        take_counts(&mut before, board)?;
        Ok(QueueReader {
            before,
            after: Vec::new(alloc),
        })
    }

    /// A step was made: counts the messages after it.
    pub(crate) fn read(&mut self, board: &Board) -> Result<(), NoMemory>
        ensures before { OnOk result (self.new.before ≡ self.old.before) }
        ensures after { OnOk result (self.new.after.items
            ≡ queue_counts (seen ⟦<dyn Device as Device>⟧ board.now).world) }
    {
        take_counts(&mut self.after, board)
    }

    /// Goes on to the next step.
    pub(crate) fn go_on(&mut self)
        ensures { self.new.before ≡ self.old.after }
    {
        mem::swap(&mut self.before, &mut self.after);
    }
}
