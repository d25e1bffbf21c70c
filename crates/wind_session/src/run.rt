//! The run of a board.

ghost use Rattle.std.specs.Prelude.{◌≡◌, ◌≤◌};
ghost use Rattle.wind_base.specs.Limits.{most_steps};
ghost use Rattle.wind_outside.specs.Counts.{Rose};
ghost use Rattle.board_player.specs.Seen.{seen};
ghost use Rattle.wind_session.specs.{Keeping.KeepsFiles, Outside.outside, Runs.Ran};
ghost use Rattle.wind_session.specs.declared.run.RunEnd.TheVariants as ends;

use crate::resuming::resume_board;
use board_player::Board;
use std::alloc::Global;
use wind_outside::{Device, Folder, Sink};

/// How a run ends.
#[derive(Clone, Copy, Debug, PartialEq, Eq)]
pub enum RunEnd {
    /// There is no further step.
    Quiet,
    /// The limit of steps was reached.
    Limit,
    /// The file of a module could not be read.
    ReadFault,
    /// What a step wrote could not be put.
    WriteFault,
    /// Host memory ran out.
    NoMemory,
}

/// Makes steps, at most `limit`, and puts what each of them writes. The modules that the steps need
/// are fetched from the folder.
pub fn run_board<F: Folder, O: Sink>(
    alloc: Global,
    board: &mut Board,
    folder: &mut F,
    modules: &str,
    out: &mut O,
    limit: u64,
) -> RunEnd
    requires fresh { (seen ⟦<dyn Device as Device>⟧ board.old).steps ≡ 0 }
    requires bound { limit ≤ most_steps }
    ensures ran { Ran result (record { files = F.files folder.old; name = modules.now })
        (seen ⟦<dyn Device as Device>⟧ board.old) limit (seen ⟦<dyn Device as Device>⟧ board.new)
        (outside (F.requests folder.old) (O.bytes out.old) (O.pieces out.old))
        (outside (F.requests folder.new) (O.bytes out.new) (O.pieces out.new)) }
    ensures read_fault { result ≡ ends.ReadFault → Rose (F.faults folder.old) (F.faults folder.new) }
    ensures fault { result ≡ ends.WriteFault → Rose (O.faults out.old) (O.faults out.new) }
    ensures keeps { KeepsFiles ⟦<F as Folder>⟧ ⟦<O as Sink>⟧ folder.old out.old folder.new out.new }
{
    resume_board(alloc, board, folder, modules, out, limit)
}
