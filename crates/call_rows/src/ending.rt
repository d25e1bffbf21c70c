//! The end of a task.

ghost use Rattle.std.specs.Prelude.{◌≡◌, ◌<◌, ◌^◌};
ghost use Rattle.wind_core.specs.State.{Lives};
ghost use Rattle.call_rows.specs.Ending.{without_stack, unguarded, ended};
ghost use Rattle.kernel_world.specs.Seen.{world_seen};

use id_table::Ident;
use kernel_world::World;
use mem_partition::{Class, Part};
use task_block::Task;
use task_safety::lessen;
use wind_core::Kern;
use wind_outside::Device;

// Frees the stack of a task.
pub(crate) fn take_stack(part: &mut Part, task: Option<Task>)
    ensures { part.new ≡ without_stack part.old task }
{
    if let Some(task) = task {
        let _ = part.free(task.stack, Class::Kernel);
    }
}

// Ends the task's safe sections, so that all who wait to delete it go on.
fn end_safety(kern: &mut Kern, who: Ident)
    requires live { Lives kern.old who }
    requires since { kern.old.next_since < 2 ^ 63 }
    ensures { kern.new ≡ unguarded kern.old who }
{
    let count = match kern.task(who) {
        Some(task) => task.safe,
        None => 0,
    };
    lessen(kern, who, count);
}

/// Ends a task. Its safe sections end, so that all who wait to delete it go on. The task is then
/// gone, and its stack goes back to the partition.
pub fn end_task(w: &mut World, who: Ident)
    requires live { Lives w.old.kern who }
    requires since { w.old.kern.next_since < 2 ^ 63 }
    ensures world { world_seen ⟦<dyn Device as Device>⟧ w.new ≡ ended (world_seen ⟦<dyn Device as Device>⟧ w.old) who }
    ensures out { w.new.out ≡ w.old.out }
{
    end_safety(&mut w.kern, who);
    let task = w.kern.remove(who);
    take_stack(&mut w.part, task);
}
