//! Who is gone after its own last step. gdb is told of it once more, since it has just stepped it.

ghost use Rattle.std.specs.Prelude.{◌≡◌};
ghost use Rattle.kernel_world.specs.Seen.{world_seen};
ghost use Rattle.debug_view.specs.Threads.{gone_in as gone_in_lem, last_of as last_of_lem, moved_on as moved_on_lem, name_of as name_of_lem, regs_ended as regs_ended_lem};

use crate::threads::{regs_there, thread_of};
use kernel_world::{Actor, World, caller_regs};
use wind_base::{Regs, ShortName};
use wind_core::Kern;
use wind_outside::Device;

/// A task or routine that is gone after its own last step.
#[derive(Drop)]
pub struct Ended {
    /// Its thread.
    pub thread: u64,
    /// Its name.
    pub name: ShortName,
    /// Its registers before that step, with the program counter 4 bytes further on.
    pub regs: Regs,
}

// The name of a task or routine.
fn name_of(kern: &Kern, actor: &Actor) -> ShortName
    ensures { result ≡ name_of_lem kern.now actor.now }
{
    let Actor::Task(who) = actor else {
        return ShortName::cut(b"interrupt");
    };
    match kern.task(*who) {
        Some(task) => task.name.copied(),
        None => ShortName::cut(b""),
    }
}

// These registers at the next instruction.
fn moved_on(regs: Regs) -> Regs
    ensures { result ≡ moved_on_lem regs }
{
    Regs {
        pc: regs.pc.wrapping_add(4),
        ..regs
    }
}

/// What is told of a task or routine if its next step in this world is its last.
pub fn last_of(world: &World, actor: &Actor) -> Ended
    ensures { result ≡ last_of_lem (world_seen ⟦<dyn Device as Device>⟧ world.now) actor.now }
{
    Ended {
        thread: thread_of(actor),
        name: name_of(&world.kern, actor),
        regs: moved_on(caller_regs(&world.kern, &world.watch, actor)),
    }
}

/// Who made a step, if it is gone in the world after it.
pub fn gone_in(world: &World, maker: Option<Ended>) -> Option<Ended>
    ensures { result ≡ gone_in_lem (world_seen ⟦<dyn Device as Device>⟧ world.now) maker }
{
    let maker = maker?;
    if regs_there(world, maker.thread).is_some() {
        return None;
    }
    Some(maker)
}

/// The registers of the one that ended, if this is its thread.
pub(crate) fn regs_ended(ended: &Option<Ended>, thread: u64) -> Option<Regs>
    ensures { result ≡ regs_ended_lem ended.now thread }
{
    match ended {
        Some(ended) if ended.thread == thread => Some(ended.regs),
        _ => None,
    }
}
