//! A run that goes on after it has reached its limit.

ghost use Rattle.std.specs.Prelude.{◌≡◌, ◌≤◌, ℕ, ◌+◌};
ghost use Rattle.wind_base.specs.Limits.{most_steps};
ghost use Rattle.wind_outside.specs.Counts.{Rose};
ghost use Rattle.board_player.specs.{Seen.seen, WindMachineState.State, WindMachineMachine.IsOver, WindMachineExtending.IsRoom};
ghost use Rattle.wind_session.specs.{Keeping.KeepsFiles, Outside.{Outside, outside}, Runs.Ran};
ghost use Rattle.wind_session.specs.declared.run.RunEnd.TheVariants as ends;

use crate::output::Output;
use crate::run::RunEnd;
use crate::telling::tell_steps;
use board_player::Board;
use std::alloc::Global;
use wind_outside::{Device, Folder, Sink};

/// Makes at most `most` further steps, and puts what each of them writes. The modules that the
/// steps need are fetched from the folder. If the board has made all its steps in a run that
/// reached its limit, that run goes on, with a limit higher by `most`.
pub fn resume_board<F: Folder, O: Sink>(
    alloc: Global,
    board: &mut Board,
    folder: &mut F,
    modules: &str,
    out: &mut O,
    most: u64,
) -> RunEnd
    requires bound { (seen ⟦<dyn Device as Device>⟧ board.old).steps + most ≤ most_steps }
    ensures ran { (start : State) (first : Outside)
        → Ran ends.Limit (record { files = F.files folder.old; name = modules.now }) start
        (seen ⟦<dyn Device as Device>⟧ board.old).steps (seen ⟦<dyn Device as Device>⟧ board.old) first
        (outside (F.requests folder.old) (O.bytes out.old) (O.pieces out.old))
        → Ran result (record { files = F.files folder.old; name = modules.now }) start
        ((seen ⟦<dyn Device as Device>⟧ board.old).steps + most) (seen ⟦<dyn Device as Device>⟧ board.new) first
        (outside (F.requests folder.new) (O.bytes out.new) (O.pieces out.new)) }
    ensures quiet { result ≡ ends.Quiet → IsOver (seen ⟦<dyn Device as Device>⟧ board.new) }
    ensures steps { (seen ⟦<dyn Device as Device>⟧ board.new).steps
        ≤ (seen ⟦<dyn Device as Device>⟧ board.old).steps + most }
    ensures room { (time line : ℕ) → IsRoom time line (seen ⟦<dyn Device as Device>⟧ board.old)
        → IsRoom time line (seen ⟦<dyn Device as Device>⟧ board.new) }
    ensures read_fault { result ≡ ends.ReadFault → Rose (F.faults folder.old) (F.faults folder.new) }
    ensures fault { result ≡ ends.WriteFault → Rose (O.faults out.old) (O.faults out.new) }
    ensures keeps { KeepsFiles ⟦<F as Folder>⟧ ⟦<O as Sink>⟧ folder.old out.old folder.new out.new }
{
    let Ok(end) = tell_steps(alloc, board, folder, modules, out, most, &mut Output);
    end
}
