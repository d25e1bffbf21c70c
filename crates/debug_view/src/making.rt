//! Who makes the next step, and at which address.

ghost use Rattle.std.specs.Prelude.{◌≡◌, ◌<◌, true, IfOk, OnErr};
ghost use Rattle.std.specs.Option.{option_map};
ghost use Rattle.wind_base.specs.Limits.{most_steps};
ghost use Rattle.board_reading.specs.BoardPlayerSeen.{seen};
ghost use Rattle.board_trace.specs.WindMachineMachine.{may_exhaust_memory};
ghost use Rattle.debug_view.specs.Making.{next_step_of};
ghost use Rattle.debug_view.specs.Threads.{thread_of as thread_of_lem};

use crate::threads::thread_of;
use board_reading::{Board, look_before};
use kernel_world::Actor;
use wind_base::NoMemory;
use wind_outside::Device;

/// Who makes the next step, and where.
#[derive(Clone, Copy, Debug, PartialEq, Eq)]
pub struct NextStep {
    /// Its thread, if a task or a routine makes it.
    pub thread: Option<u64>,
    /// The address at which it makes it, if the step is an instruction or a call. The shell's own
    /// steps have none.
    pub at: Option<u32>,
}

// The thread of an actor, if there is one.
fn thread_of_any(actor: &Option<Actor>) -> Option<u64>
    ensures { result ≡ option_map thread_of_lem actor.now }
{
    match actor {
        Some(actor) => Some(thread_of(actor)),
        None => None,
    }
}

/// Who makes the next step of a board, and where. Host memory may run out only if the state permits
/// it.
pub fn next_step(board: &Board) -> Result<NextStep, NoMemory>
    requires { (seen ⟦<dyn Device as Device>⟧ board.now).steps < most_steps }
    ensures value { IfOk result (λ n. n ≡ next_step_of (seen ⟦<dyn Device as Device>⟧ board.now)) }
    ensures no_memory { OnErr result (may_exhaust_memory (seen ⟦<dyn Device as Device>⟧ board.now) ≡ true) }
{
    let before = look_before(board)?;
    Ok(NextStep {
        thread: thread_of_any(&before.actor),
        at: before.at,
    })
}
