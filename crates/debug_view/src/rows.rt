//! The list of threads.

ghost use Rattle.std.specs.Prelude.{◌≡◌, ◌++◌, map, option_to_list, OnOk};
ghost use Rattle.std.specs.Option.{option_map};
ghost use Rattle.kernel_world.specs.Seen.{world_seen};
ghost use Rattle.board_reading.specs.BoardPlayerSeen.{seen};
ghost use Rattle.debug_texts.specs.Lists.{thread_rows, thread_text};
ghost use Rattle.debug_view.specs.Rows.{ended_row, interrupt_rows, rows_of, task_row, threads_told};

use crate::ended::Ended;
use crate::threads::INTERRUPT_THREAD;
use crate::words::add_task_words;
use board_reading::{Board, Phase};
use debug_texts::{add_thread, begin_threads, end_threads};
use kernel_world::{Objects, World};
use task_block::Task;
use wind_base::NoMemory;
use wind_core::Kern;
use wind_outside::Device;

// Adds the row of a task.
fn add_task(
    text: &mut Vec<u8>,
    phase: Phase,
    objects: &Objects,
    task: &Task,
) -> Result<(), NoMemory>
    ensures { OnOk result (text.new.items
        ≡ text.old.items ++ thread_text (task_row phase objects.now task.now)) }
{
    let mut words = Vec::new(*text.allocator());
    add_task_words(&mut words, phase, objects, task)?;
    add_thread(text, u64::from(task.id.get()), task.name.bytes(), &words)
}

// Adds the rows of the tasks, by rising id.
fn add_tasks(
    text: &mut Vec<u8>,
    phase: Phase,
    objects: &Objects,
    kern: &Kern,
) -> Result<(), NoMemory>
    ensures { OnOk result (text.new.items
        ≡ text.old.items ++ thread_rows (map (task_row phase objects.now) kern.now.tasks)) }
{
    for place in 0..kern.live() {
        add_task(text, phase, objects, kern.task_at(place))?;
    }
    Ok(())
}

// Adds the row of the interrupt level while a routine is active.
fn add_interrupt(text: &mut Vec<u8>, world: &World) -> Result<(), NoMemory>
    ensures { OnOk result (text.new.items ≡ text.old.items
        ++ thread_rows (interrupt_rows (world_seen ⟦<dyn Device as Device>⟧ world.now).watch.level)) }
{
    if !world.watch.active() {
        return Ok(());
    }
    add_thread(text, INTERRUPT_THREAD, b"interrupt", b"routine")
}

// Adds the row of the one that ended.
fn add_ended(text: &mut Vec<u8>, ended: &Option<Ended>) -> Result<(), NoMemory>
    ensures { OnOk result (text.new.items
        ≡ text.old.items ++ thread_rows (option_to_list (option_map ended_row ended.now))) }
{
    match ended {
        Some(ended) => add_thread(text, ended.thread, ended.name.bytes(), b"ended"),
        None => Ok(()),
    }
}

// Adds the rows of all threads.
fn add_rows(
    text: &mut Vec<u8>,
    phase: Phase,
    world: &World,
    ended: &Option<Ended>,
) -> Result<(), NoMemory>
    ensures { OnOk result (text.new.items ≡ text.old.items
        ++ thread_rows (rows_of phase (world_seen ⟦<dyn Device as Device>⟧ world.now) ended.now)) }
{
    add_tasks(text, phase, &world.objects, &world.kern)?;
    add_interrupt(text, world)?;
    add_ended(text, ended)
}

/// Adds the list of threads: the live tasks by rising id, the interrupt level while a routine is
/// active, and the one that ended in the step before.
pub fn add_threads(text: &mut Vec<u8>, board: &Board, ended: &Option<Ended>) -> Result<(), NoMemory>
    ensures { OnOk result (text.new.items
        ≡ text.old.items ++ threads_told (seen ⟦<dyn Device as Device>⟧ board.now) ended.now) }
{
    begin_threads(text)?;
    add_rows(text, board.phase(), board.world(), ended)?;
    end_threads(text)
}
