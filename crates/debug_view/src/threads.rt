//! Threads: the live tasks, and the interrupt level while a routine is active.

ghost use Rattle.std.specs.Prelude.{◌≡◌, option_copied};
ghost use Rattle.std.specs.Option.{option_map};
ghost use Rattle.kernel_world.specs.Seen.{world_seen};
ghost use Rattle.debug_view.specs.Threads.{is_told as is_told_lem, regs_there as regs_there_lem, regs_told as regs_told_lem, task_there as task_there_lem, thread_of as thread_of_lem};

use crate::ended::{Ended, regs_ended};
use id_table::Ident;
use kernel_world::{Actor, World};
use task_block::Task;
use wind_base::Regs;
use wind_base::limits::IDS;
use wind_core::Kern;
use wind_outside::Device;

/// The thread of the interrupt level: one more than the greatest id of a task.
pub const INTERRUPT_THREAD: u64 = IDS as u64 + 1;

/// The thread of a task or of the active routine.
pub fn thread_of(actor: &Actor) -> u64
    ensures { result ≡ thread_of_lem actor.now }
{
    match actor {
        Actor::Task(who) => u64::from(who.get()),
        Actor::Interrupt => INTERRUPT_THREAD,
    }
}

// The task of a thread.
#[tactic(auto, using(crate::proofs::Absent::none_past, crate::proofs::Absent::none_zero))]
fn task_there(kern: &Kern, thread: u64) -> Option<&Task>
    ensures { option_copied result ≡ task_there_lem kern.now thread }
{
    kern.facts();
    if thread > u64::from(IDS) {
        return None;
    }
    kern.task(Ident::new(thread as u32)?)
}

// The registers of the task of a thread.
fn task_regs(kern: &Kern, thread: u64) -> Option<Regs>
    ensures { result ≡ option_map (λ t. t.regs) (task_there_lem kern.now thread) }
{
    match task_there(kern, thread) {
        Some(task) => Some(task.regs),
        None => None,
    }
}

// The registers of the active routine.
fn routine_regs(world: &World) -> Option<Regs>
    ensures { result ≡ (world_seen ⟦<dyn Device as Device>⟧ world.now).watch.level }
{
    match world.watch.regs() {
        Some(regs) => Some(*regs),
        None => None,
    }
}

/// The registers of a thread that is there.
pub(crate) fn regs_there(world: &World, thread: u64) -> Option<Regs>
    ensures { result ≡ regs_there_lem (world_seen ⟦<dyn Device as Device>⟧ world.now) thread }
{
    if thread == INTERRUPT_THREAD {
        return routine_regs(world);
    }
    task_regs(&world.kern, thread)
}

/// The registers that are told of a thread: of one that is there, or of the one that ended.
pub(crate) fn regs_told(world: &World, ended: &Option<Ended>, thread: u64) -> Option<Regs>
    ensures { result ≡ regs_told_lem (world_seen ⟦<dyn Device as Device>⟧ world.now) ended.now thread }
{
    match regs_there(world, thread) {
        Some(regs) => Some(regs),
        None => regs_ended(ended, thread),
    }
}

/// Whether a thread is told: it is there, or it is the one that ended.
pub fn is_told(world: &World, ended: &Option<Ended>, thread: u64) -> bool
    ensures { result ≡ is_told_lem (world_seen ⟦<dyn Device as Device>⟧ world.now) ended.now thread }
{
    regs_told(world, ended, thread).is_some()
}
