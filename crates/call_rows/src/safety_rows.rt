//! The calls on safe sections, and the deletion of a task.

ghost use Rattle.std.specs.Prelude.{◌≡◌, ◌<◌, ◌^◌};
ghost use Rattle.std.specs.List.{All};
ghost use Rattle.kernel_world.specs.Objects.{deletion_gate};
ghost use Rattle.kernel_world.specs.Actors.{Acts};
ghost use Rattle.call_rows.specs.TaskRows.{row_of};
ghost use Rattle.call_rows.specs.SafetyRows.{safe_row, unsafe_row, back_at_gate, meant as meant_lem, deletion, delete_row};

use crate::ending::take_stack;
use id_table::Ident;
use kernel_world::{Actor, DONE, Reply, gate_address};
use mem_partition::Part;
use task_safety::{Deleted, delete as delete_task, safe, unsafe_by};
use wind_base::{BoardKind, Errno, Gate, Regs};
use wind_core::Kern;

/// taskSafe, from a task: makes the caller safe from deletion once more. Refused at interrupt
/// level.
#[tactic(auto, using(crate::proofs::Counts::safes_below))]
pub fn make_safe(kern: &mut Kern, who: Actor) -> Reply
    requires live { Acts kern.old who }
    requires safes { All (λ t. t.safe < 2 ^ 60) kern.old.tasks }
    ensures row { row_of kern.new result ≡ safe_row kern.old who }
{
    let Actor::Task(who) = who else {
        return Reply::Refusal(Errno::NotIsrCallable);
    };
    safe(kern, who);
    DONE
}

/// taskUnsafe, from a task: ends one safe section of the caller. When the last one ends, all who
/// wait to delete it go on. Refused at interrupt level, and if the caller isn't safe.
pub fn make_unsafe(kern: &mut Kern, who: Actor) -> Reply
    requires live { Acts kern.old who }
    requires since { kern.old.next_since < 2 ^ 63 }
    ensures row { row_of kern.new result ≡ unsafe_row kern.old who }
{
    let Actor::Task(who) = who else {
        return Reply::Refusal(Errno::NotIsrCallable);
    };
    match unsafe_by(kern, who, 1) {
        Ok(()) => DONE,
        Err(errno) => Reply::Refusal(errno),
    }
}

// The id of the task to delete: 0 is the caller.
fn meant(caller: Ident, id: u32) -> u32
    ensures { result ≡ meant_lem caller id }
{
    if id == 0 { caller.get() } else { id }
}

// The registers, with the program counter at the board's gate of taskDelete.
fn at_deletion(regs: &Regs, board: BoardKind) -> Regs
    ensures { result ≡ record regs.now { pc = deletion_gate board } }
{
    Regs {
        pc: gate_address(board, Gate::TaskDelete),
        ..*regs
    }
}

// Puts the task at the board's gate of taskDelete.
fn stand_at_gate(kern: &mut Kern, who: Ident, board: BoardKind)
    ensures { kern.new ≡ back_at_gate board kern.old who }
{
    kern.facts();
    let Some(task) = kern.task(who) else {
        return;
    };
    let regs = at_deletion(&task.regs, board);
    kern.set_regs(who, regs);
}

/// taskDelete, from a task: deletes the task with this id; 0 is the caller. While that task is
/// safe, the caller waits at the board's gate of this call. Refused at interrupt level, if no such
/// task lives, and for the shell's task.
pub fn delete(kern: &mut Kern, part: &mut Part, who: Actor, id: u32, board: BoardKind) -> Reply
    requires live { Acts kern.old who }
    requires since { kern.old.next_since < 2 ^ 63 }
    requires tick { kern.old.tick < 2 ^ 63 }
    ensures row { deletion kern.new part.new result ≡ delete_row board kern.old part.old who id }
{
    let Actor::Task(caller) = who else {
        return Reply::Refusal(Errno::NotIsrCallable);
    };
    match delete_task(kern, caller, meant(caller, id)) {
        Ok(Deleted::Removed(task)) => {
            take_stack(part, Some(task));
            DONE
        }
        Ok(Deleted::SelfEnded(task)) => {
            take_stack(part, Some(task));
            Reply::Gone
        }
        Ok(Deleted::Pended) => {
            stand_at_gate(kern, caller, board);
            Reply::Later
        }
        Err(errno) => Reply::Refusal(errno),
    }
}
