//! The words about a task in the list of threads.

ghost use Rattle.std.specs.Prelude.{◌≡◌, ◌++◌, OnOk};
ghost use Rattle.std.specs.Fmt.{decimal};
ghost use Rattle.debug_view.specs.Rows.{awaited_words, or_ready, phase_word as phase_word_lem, phase_words, reasons, suspended_words, task_words, wait_words, wake_words};

use board_changes::Awaited;
use board_reading::{Phase, awaited_by};
use debug_wire::{add, add_decimal};
use id_table::Ident;
use kernel_world::Objects;
use task_block::Task;
use wind_base::NoMemory;

// Adds a kind of object and its id.
fn add_object(text: &mut Vec<u8>, kind: &[u8], id: Ident) -> Result<(), NoMemory>
    ensures { OnOk result (text.new.items ≡ text.old.items ++ (kind.now ++ decimal id)) }
{
    add(text, kind)?;
    add_decimal(text, u64::from(id.get()))
}

// Adds what a task waits for.
fn add_awaited(text: &mut Vec<u8>, object: Awaited) -> Result<(), NoMemory>
    ensures { OnOk result (text.new.items ≡ text.old.items ++ awaited_words object) }
{
    match object {
        Awaited::Semaphore(id) => add_object(text, b"semaphore ", id),
        Awaited::Mutex(id) => add_object(text, b"mutex ", id),
        Awaited::Receiving(id) => add_object(text, b"message of queue ", id),
        Awaited::Sending(id) => add_object(text, b"room in queue ", id),
        Awaited::Deletion(id) => add_object(text, b"deletion of task ", id),
        Awaited::Console => add(text, b"console"),
    }
}

// Adds that a task waits, if it does.
fn add_wait(text: &mut Vec<u8>, object: Option<Awaited>) -> Result<(), NoMemory>
    ensures { OnOk result (text.new.items ≡ text.old.items ++ wait_words object) }
{
    let Some(object) = object else {
        return Ok(());
    };
    add(text, b"waits for ")?;
    add_awaited(text, object)?;
    add(text, b", ")
}

// Adds the tick at which a task's delay or timeout ends, if there is one.
fn add_wake(text: &mut Vec<u8>, wake: Option<u64>) -> Result<(), NoMemory>
    ensures { OnOk result (text.new.items ≡ text.old.items ++ wake_words wake) }
{
    let Some(tick) = wake else {
        return Ok(());
    };
    add(text, b"until tick ")?;
    add_decimal(text, tick)?;
    add(text, b", ")
}

// Adds that a task is suspended, if it is.
fn add_suspended(text: &mut Vec<u8>, suspended: bool) -> Result<(), NoMemory>
    ensures { OnOk result (text.new.items ≡ text.old.items ++ suspended_words suspended) }
{
    if !suspended {
        return Ok(());
    }
    add(text, b"suspended, ")
}

// Adds why a task isn't ready.
fn add_reasons(text: &mut Vec<u8>, objects: &Objects, task: &Task) -> Result<(), NoMemory>
    ensures { OnOk result (text.new.items ≡ text.old.items ++ reasons objects.now task.now) }
{
    add_wait(text, awaited_by(objects, task))?;
    add_wake(text, task.wake)?;
    add_suspended(text, task.suspended)
}

// Adds these reasons, or that the task is ready if there is none.
fn add_or_ready(text: &mut Vec<u8>, reasons: &[u8]) -> Result<(), NoMemory>
    ensures { OnOk result (text.new.items ≡ text.old.items ++ or_ready reasons.now) }
{
    match reasons {
        [] => add(text, b"ready, "),
        _ => add(text, reasons),
    }
}

// Adds whether a task is ready, and why it isn't.
fn add_state(text: &mut Vec<u8>, objects: &Objects, task: &Task) -> Result<(), NoMemory>
    ensures { OnOk result (text.new.items ≡ text.old.items ++ or_ready (reasons objects.now task.now)) }
{
    let mut reasons = Vec::new(*text.allocator());
    add_reasons(&mut reasons, objects, task)?;
    add_or_ready(text, &reasons)
}

// The word for a phase of the shell.
fn phase_word(phase: Phase) -> &'static [u8]
    ensures { result.now ≡ phase_word_lem phase }
{
    match phase {
        Phase::Prompt => b"Prompt",
        Phase::Read => b"Read",
        Phase::Eval => b"Eval",
        Phase::Call => b"Call",
    }
}

// Adds the shell's phase, if this is the id of its task.
fn add_phase(text: &mut Vec<u8>, phase: Phase, id: Ident) -> Result<(), NoMemory>
    ensures { OnOk result (text.new.items ≡ text.old.items ++ phase_words phase id) }
{
    if id != Ident::shell() {
        return Ok(());
    }
    add(text, b", phase ")?;
    add(text, phase_word(phase))
}

/// Adds the words about a task: its state, its priority, and of the shell's task the phase.
pub(crate) fn add_task_words(
    text: &mut Vec<u8>,
    phase: Phase,
    objects: &Objects,
    task: &Task,
) -> Result<(), NoMemory>
    ensures { OnOk result (text.new.items ≡ text.old.items ++ task_words phase objects.now task.now) }
{
    add_state(text, objects, task)?;
    add(text, b"priority ")?;
    add_decimal(text, u64::from(task.pri.get()))?;
    add_phase(text, phase, task.id)
}
