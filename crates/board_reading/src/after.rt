//! What is read of a board after a step.

ghost use Rattle.std.specs.Prelude.{◌≡◌, option_copied};
ghost use Rattle.std.specs.Option.{option_map};
ghost use Rattle.board_player.specs.Seen.{last_reply, seen};
ghost use Rattle.board_trace.specs.Snapshots.{level_of as level_of_lem, after_step as after_step_lem};

use crate::before::owner_named;
use board_player::Board;
use board_trace::{AfterStep, BeforeStep, Level};
use wind_base::Regs;
use wind_outside::Device;

// The active routine, by its registers.
fn level_of(regs: Option<&Regs>) -> Option<Level>
    ensures { result ≡ option_map level_of_lem (option_copied regs.entry) }
{
    match regs {
        Some(regs) => Some(Level {
            pc: regs.pc,
            param: regs.gpr[3],
        }),
        None => None,
    }
}

/// Reads what a trace needs of a board after a step, besides its snapshot.
pub fn look_after(before_step: &BeforeStep, board: &Board) -> AfterStep
    ensures { result ≡ after_step_lem before_step.now (last_reply board.now)
        (seen ⟦<dyn Device as Device>⟧ board.now) }
{
    let world = board.world();
    AfterStep {
        tick: board.ticks(),
        left: board.left().len() as u64,
        phase: board.phase(),
        level: level_of(world.watch.regs()),
        reply: board.reply(),
        owner: owner_named(world, &before_step.call),
    }
}
