//! How interrupt routines end and begin.

ghost use Rattle.std.specs.Prelude.{◌≡◌};
ghost use Rattle.live_loading.specs.KernelWorldSeen.{world_seen};
ghost use Rattle.live_loading.specs.KernelWorldReplies.{level_by};
ghost use Rattle.wind_machine.specs.Routine.{next_routine as next_routine_lem, without_reserve};

use isr_watch::Watch;
use live_loading::World;
use wind_base::limits::{INTERRUPT_STACK_BYTES, POOL_START, SHELL_STACK_BYTES};
use wind_outside::Device;

/// The end of the interrupt stack, which comes after the stack of the shell's task.
pub const INTERRUPT_TOP: u32 = POOL_START + SHELL_STACK_BYTES + INTERRUPT_STACK_BYTES;

/// The routine is done: the next listed one becomes active, if there is one.
pub(crate) fn next_routine(world: &mut World)
    ensures world { world_seen ⟦<dyn Device as Device>⟧ world.new
        ≡ next_routine_lem (world_seen ⟦<dyn Device as Device>⟧ world.old) }
    ensures out { world.new.out ≡ world.old.out }
{
    world.watch.finish(INTERRUPT_TOP);
}

/// Drops the routine's reservation.
pub(crate) fn drop_reserve(watch: &mut Watch)
    ensures { watch.new ≡ level_by without_reserve watch.old }
{
    if let Some(regs) = watch.regs_mut() {
        regs.reserve = None;
    }
}
