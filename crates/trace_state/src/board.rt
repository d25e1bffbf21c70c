//! The board as JSON.

ghost use Rattle.std.specs.Prelude.{◌≡◌, IfOk, OnOk};
ghost use Rattle.serde_json.specs.View.{view};
ghost use Rattle.kernel_world.specs.Seen.{world_seen};
ghost use Rattle.board_reading.specs.BoardPlayerSeen.{seen};
ghost use Rattle.trace_state.specs.Held.{members_in};
ghost use Rattle.trace_state.specs.Board.{IsTextOf, board_data, console_data, memory_members, module_members, object_members, phase_word as phase_word_lem, shell_data, shell_members, task_members, time_members, time_shown as time_shown_lem};
ghost use Rattle.trace_state.specs.Json.{with_all};

use crate::json::{Members, id_or_null};
use crate::memory::{blocks, ranges};
use crate::modules::{modules, symbols};
use crate::objects::{level, rows, watchdogs};
use crate::slots::devices;
use crate::tasks::tasks;
use board_reading::{Board, Phase, running_task};
use kernel_world::World;
use serde_json::Value;
use std::alloc::{AllocError, Global};
use wind_outside::Device;

// The word for a phase of the shell.
fn phase_word(phase: Phase) -> &'static str
    ensures { result.now ≡ phase_word_lem phase }
{
    match phase {
        Phase::Prompt => "prompt",
        Phase::Read => "read",
        Phase::Eval => "eval",
        Phase::Call => "call",
    }
}

/// Board time as it is shown: at most 2^64 - 1.
pub fn time_shown(time: u128) -> u64
    ensures { result ≡ time_shown_lem time }
{
    time.min(u64::MAX as u128) as u64
}

// Adds the time and who runs: no task while an interrupt routine is active.
fn add_time(members: &mut Members, board: &Board) -> Result<(), AllocError>
    ensures { OnOk result (members_in members.new
        ≡ with_all (time_members (seen ⟦<dyn Device as Device>⟧ board.now)) (members_in members.old)) }
{
    let world = board.world();
    members.put_number("time", time_shown(board.time()))?;
    members.put_number("steps", board.steps())?;
    members.put_number("tick", board.ticks())?;
    members.put("last", id_or_null(world.kern.last()))?;
    members.put("running", id_or_null(running_task(world)))
}

// The console.
fn console_value(alloc: Global, board: &Board) -> Result<Value, AllocError>
    ensures { IfOk result (λ v. view v ≡ console_data (seen ⟦<dyn Device as Device>⟧ board.now)) }
{
    let mut members = Members::new(alloc);
    members.put_number("left", board.left().len() as u64)?;
    Ok(members.finish())
}

// The shell.
fn shell_value(alloc: Global, board: &Board) -> Result<Value, AllocError>
    ensures { IfOk result (λ v. view v ≡ shell_data (seen ⟦<dyn Device as Device>⟧ board.now)) }
{
    let mut members = Members::new(alloc);
    members.put_word("phase", phase_word(board.phase()))?;
    Ok(members.finish())
}

// Adds the console and the shell.
fn add_shell(alloc: Global, members: &mut Members, board: &Board) -> Result<(), AllocError>
    ensures { OnOk result (members_in members.new
        ≡ with_all (shell_members (seen ⟦<dyn Device as Device>⟧ board.now)) (members_in members.old)) }
{
    let console = console_value(alloc, board)?;
    members.put("console", console)?;
    let shell = shell_value(alloc, board)?;
    members.put("shell", shell)
}

// Adds the tasks and the interrupt level.
fn add_tasks(alloc: Global, members: &mut Members, world: &World) -> Result<(), AllocError>
    ensures { OnOk result (members_in members.new
        ≡ with_all (task_members (world_seen ⟦<dyn Device as Device>⟧ world.now)) (members_in members.old)) }
{
    let tasks = tasks(alloc, world)?;
    members.put("tasks", tasks)?;
    let level = level(alloc, &world.watch, world.int_errno)?;
    members.put("level", level)
}

// Adds the kernel's objects.
fn add_objects(alloc: Global, members: &mut Members, world: &World) -> Result<(), AllocError>
    ensures { OnOk result (members_in members.new
        ≡ with_all (object_members (world_seen ⟦<dyn Device as Device>⟧ world.now)) (members_in members.old)) }
{
    let semaphores = rows(alloc, world.objects.semaphores.table())?;
    members.put("semaphores", semaphores)?;
    let mutexes = rows(alloc, world.objects.mutexes.table())?;
    members.put("mutexes", mutexes)?;
    let queues = rows(alloc, world.objects.queues.table())?;
    members.put("queues", queues)?;
    let watchdogs = watchdogs(alloc, &world.watch)?;
    members.put("watchdogs", watchdogs)
}

// Adds the modules and the symbols.
fn add_modules(alloc: Global, members: &mut Members, world: &World) -> Result<(), AllocError>
    ensures { OnOk result (members_in members.new
        ≡ with_all (module_members (world_seen ⟦<dyn Device as Device>⟧ world.now)) (members_in members.old)) }
{
    let modules = modules(alloc, &world.mods)?;
    members.put("modules", modules)?;
    let symbols = symbols(alloc, &world.syms)?;
    members.put("symbols", symbols)
}

// Adds the memory partition, RAM and the device slots.
fn add_memory(alloc: Global, members: &mut Members, world: &World) -> Result<(), AllocError>
    ensures { OnOk result (members_in members.new
        ≡ with_all (memory_members (world_seen ⟦<dyn Device as Device>⟧ world.now)) (members_in members.old)) }
{
    let blocks = blocks(alloc, &world.part)?;
    members.put("blocks", blocks)?;
    let ram = ranges(alloc, &world.bus.ram)?;
    members.put("ram", ram)?;
    let slots = devices(alloc, &world.bus.slots, &world.irqs)?;
    members.put("slots", slots)
}

// The board.
#[tactic(auto, unfolding(crate::specs::Board::board_data))]
fn board_value(alloc: Global, board: &Board) -> Result<Value, AllocError>
    ensures { IfOk result (λ v. view v ≡ board_data (seen ⟦<dyn Device as Device>⟧ board.now)) }
{
    let mut members = Members::new(alloc);
    let world = board.world();
    add_time(&mut members, board)?;
    add_shell(alloc, &mut members, board)?;
    add_tasks(alloc, &mut members, world)?;
    add_objects(alloc, &mut members, world)?;
    add_modules(alloc, &mut members, world)?;
    add_memory(alloc, &mut members, world)?;
    Ok(members.finish())
}

/// The text of a board as JSON, with a newline at its end.
pub fn state_text(alloc: Global, board: &Board) -> Result<Vec<u8>, AllocError>
    ensures { IfOk result (λ text. IsTextOf text.items (board_data (seen ⟦<dyn Device as Device>⟧ board.now))) }
{
    let mut text = board_value(alloc, board)?.to_vec_pretty(alloc)?;
    text.push(b'\n')?;
    Ok(text)
}
