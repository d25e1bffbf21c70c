//! The instruction that the next step of a board executes.

ghost use Rattle.std.specs.Prelude.{◌≡◌, ◌<◌, IfOk};
ghost use Rattle.wind_base.specs.Limits.{most_steps};
ghost use Rattle.kernel_world.specs.Seen.{world_seen};
ghost use Rattle.board_reading.specs.BoardPlayerSeen.{seen};
ghost use Rattle.trace_coverage.specs.Executed.{executed_at, executed_by as executed_by_lem, instruction_under as instruction_under_lem, is_instruction as is_instruction_lem};

use board_reading::{Board, look_before};
use board_trace::BeforeStep;
use kernel_world::{Actor, World, caller_regs};
use ppc_word::row_for;
use wind_base::NoMemory;
use wind_outside::Device;

// Whether a word is an instruction of the table.
fn is_instruction(word: Option<u32>) -> bool
    ensures { result ≡ is_instruction_lem word }
{
    match word {
        Some(word) => row_for(word).is_some(),
        None => false,
    }
}

// The address of the instruction that a step executes, if it executes one.
fn executed_by(before: &BeforeStep) -> Option<u32>
    ensures { result ≡ executed_by_lem before.now }
{
    if is_instruction(before.word) {
        before.at
    } else {
        None
    }
}

/// The address of the instruction that the next step of a board executes, if it executes one.
pub fn executed_next(board: &Board) -> Result<Option<u32>, NoMemory>
    requires { (seen ⟦<dyn Device as Device>⟧ board.now).steps < most_steps }
    ensures { IfOk result (λ at. at ≡ executed_at (seen ⟦<dyn Device as Device>⟧ board.now)) }
{
    let before = look_before(board)?;
    Ok(executed_by(&before))
}

/// The address of the word at which a task or routine is, if the word can be fetched and is an
/// instruction.
pub(crate) fn instruction_under(world: &World, who: &Actor) -> Option<u32>
    ensures { result ≡ instruction_under_lem (world_seen ⟦<dyn Device as Device>⟧ world.now) who.now }
{
    let at = caller_regs(&world.kern, &world.watch, who).pc;
    if is_instruction(world.bus.fetch(at)) {
        Some(at)
    } else {
        None
    }
}
