//! The shell's task.

ghost use Rattle.std.specs.Prelude.{◌≡◌, ◌+◌, ◌^◌, ◌<◌};
ghost use Rattle.wind_core.specs.State.{Lives};
ghost use Rattle.wind_core.specs.Orders.{waits_at};
ghost use Rattle.live_loading.specs.KernelWorldSeen.{world_seen};
ghost use Rattle.wind_machine.specs.Shell.{calling};
ghost use Rattle.wind_machine.specs.Task.{console_place, waits_for_console as waits_for_console_lem, is_held as is_held_lem, shell_task, listening, let_go as let_go_lem, aborted, return_address as return_address_lem};

use id_table::sides::CONSOLE;
use id_table::{Ident, Place};
use live_loading::{World, gate_address, put_frame, starting_regs};
use task_block::Task;
use wind_base::limits::{FRAME_BYTES, POOL_START, SHELL_STACK_BYTES};
use wind_base::words::WAIT_FOREVER;
use wind_base::{BoardKind, Gate};
use wind_core::Kern;
use wind_outside::Device;

// r1 at the start of a call: one frame below the end of the stack of the shell's task, which begins
// where the pool does.
const STACK_POINTER: u32 = POOL_START + SHELL_STACK_BYTES - FRAME_BYTES;

// The place at which the shell's task waits for the console.
fn console() -> Place
    ensures { result ≡ console_place }
{
    Place {
        side: CONSOLE,
        id: Ident::shell(),
    }
}

// Whether a task waits for the console.
fn is_at_console(task: &Task) -> bool
    ensures { result ≡ waits_at console_place task.now }
{
    match task.wait {
        Some(place) => place.side == CONSOLE && place.id == Ident::shell(),
        None => false,
    }
}

/// Whether the shell's task waits for the console.
#[inline(never)]
pub fn waits_for_console(kern: &Kern) -> bool
    ensures { result ≡ waits_for_console_lem kern.now }
{
    match kern.task(Ident::shell()) {
        Some(task) => is_at_console(task),
        None => false,
    }
}

// Whether the shell's task waits for something or is delayed.
fn is_held(kern: &Kern) -> bool
    ensures { result ≡ is_held_lem (shell_task kern.now) }
{
    match kern.task(Ident::shell()) {
        Some(task) => task.wait.is_some() || task.wake.is_some(),
        None => false,
    }
}

/// The shell's task begins to wait for the console.
pub fn listen(kern: &mut Kern)
    requires live { Lives kern.old 1 }
    requires since { kern.old.next_since + 1 < 2 ^ 64 }
    requires tick { kern.old.tick < 2 ^ 63 }
    ensures { kern.new ≡ listening kern.old }
{
    kern.pend(Ident::shell(), console(), false, WAIT_FOREVER);
}

// Ends the wait or delay of the shell's task, if it has one.
fn let_go(kern: &mut Kern)
    requires live { Lives kern.old 1 }
    requires since { kern.old.next_since + 1 < 2 ^ 64 }
    ensures { kern.new ≡ let_go_lem kern.old }
{
    if is_held(kern) {
        kern.release(Ident::shell());
    }
}

/// Aborts the shell's task: it has no wait, no delay, and none of its marks afterwards.
#[tactic(auto, using(wind_machine::proofs::TaskLemmas::let_go_lives, wind_machine::proofs::TaskLemmas::let_go_since))]
pub(crate) fn abort(kern: &mut Kern)
    requires live { Lives kern.old 1 }
    requires since { kern.old.next_since + 2 < 2 ^ 64 }
    ensures { kern.new ≡ aborted kern.old }
{
    let_go(kern);
    kern.reset(Ident::shell());
}

// The address to which a call of the shell returns on a board of this kind.
fn return_address(board: BoardKind) -> u32
    ensures { result ≡ return_address_lem board }
{
    gate_address(board, Gate::ShellReturn)
}

/// Begins a call of the shell's task: sets its registers, and puts the frame into RAM.
pub(crate) fn begin_call(world: &mut World, callee: u32, words: &[u32; 10])
    requires live { Lives world.old.kern 1 }
    ensures called { world_seen ⟦<dyn Device as Device>⟧ world.new
        ≡ calling (world_seen ⟦<dyn Device as Device>⟧ world.old) callee words.now }
    ensures out { world.new.out ≡ world.old.out }
{
    let link = return_address(world.board);
    put_frame(&mut world.bus.ram, STACK_POINTER, words);
    world.kern.set_regs(
        Ident::shell(),
        starting_regs(STACK_POINTER, link, callee, words),
    );
}
