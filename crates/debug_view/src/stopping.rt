//! The thread that a stop names.

ghost use Rattle.std.specs.Prelude.{◌≡◌};
ghost use Rattle.board_reading.specs.BoardTraceRunning.{running_task as running_task_lem};
ghost use Rattle.kernel_world.specs.Seen.{world_seen};
ghost use Rattle.std.specs.Option.{option_or};
ghost use Rattle.debug_view.specs.Stopping.{named_thread as named_thread_lem, usual_thread as usual_thread_lem};

use crate::ended::Ended;
use crate::threads::{is_told, regs_there};
use board_reading::running_task;
use kernel_world::World;
use wind_outside::Device;

// The thread of the shell's task.
const SHELL_THREAD: u64 = 1;

// Who makes the next step, else who runs.
fn next_or_running(world: &World, next: Option<u64>) -> Option<u64>
    ensures { result ≡ option_or next (running_task_lem (world_seen ⟦<dyn Device as Device>⟧ world.now)) }
{
    if next.is_some() {
        return next;
    }
    match running_task(world) {
        Some(who) => Some(u64::from(who.get())),
        None => None,
    }
}

// The thread that steps if it lives, else who makes the next step, else who runs, else thread 1.
fn usual_thread(world: &World, stepping: u64, next: Option<u64>) -> u64
    ensures { result ≡ usual_thread_lem (world_seen ⟦<dyn Device as Device>⟧ world.now) stepping next }
{
    if regs_there(world, stepping).is_some() {
        return stepping;
    }
    next_or_running(world, next).unwrap_or(SHELL_THREAD)
}

/// The thread that a stop names: `who`, for whom it is, if that one is told; else the thread that
/// steps if it lives, else who makes the next step, else who runs, else thread 1.
pub fn named_thread(
    world: &World,
    ended: &Option<Ended>,
    who: Option<u64>,
    stepping: u64,
    next: Option<u64>,
) -> u64
    ensures { result ≡ named_thread_lem (world_seen ⟦<dyn Device as Device>⟧ world.now) ended.now who stepping next }
{
    match who {
        Some(who) if is_told(world, ended, who) => who,
        _ => usual_thread(world, stepping, next),
    }
}
