//! Who runs in a world.

ghost use Rattle.std.specs.Prelude.{◌≡◌};
ghost use Rattle.std.specs.Option.{option_map};
ghost use Rattle.kernel_world.specs.Seen.{world_seen};
ghost use Rattle.board_trace.specs.Running.{running_task as running_task_lem};
ghost use Rattle.board_trace.specs.WindMachineSilent.{last_actor as last_actor_lem};

use id_table::Ident;
use kernel_world::{Actor, World};
use wind_outside::Device;

// This task.
fn task(who: Option<Ident>) -> Option<Actor>
    ensures { result ≡ option_map (λ who. Actor.Task who) who }
{
    match who {
        Some(who) => Some(Actor::Task(who)),
        None => None,
    }
}

/// The active interrupt routine, else the task that made the last step of a task.
pub fn last_actor(world: &World) -> Option<Actor>
    ensures { result ≡ last_actor_lem (world_seen ⟦<dyn Device as Device>⟧ world.now) }
{
    if world.watch.active() {
        return Some(Actor::Interrupt);
    }
    task(world.kern.last())
}

/// The task that runs; none while an interrupt routine is active.
pub fn running_task(world: &World) -> Option<Ident>
    ensures { result ≡ running_task_lem (world_seen ⟦<dyn Device as Device>⟧ world.now) }
{
    if world.watch.active() {
        return None;
    }
    world.kern.runner()
}
