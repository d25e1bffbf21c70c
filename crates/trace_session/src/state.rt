//! A run, told as the board that it leaves.

ghost use Rattle.std.specs.Prelude.{◌≡◌, ◌≤◌, IfOk, OnErr};
ghost use Rattle.wind_base.specs.Limits.{most_steps};
ghost use Rattle.wind_outside.specs.Counts.{Rose};
ghost use Rattle.wind_session.specs.{Keeping.KeepsFiles, Telling.Told};
ghost use Rattle.wind_session.specs.BoardPlayerSeen.{seen};
ghost use Rattle.wind_session.specs.declared.run.RunEnd.TheVariants as ends;
ghost use Rattle.trace_session.specs.Traced.{Alone, TellsNothing, TellsState};

use crate::put::put_text;
use crate::traced::TracedRun;
use std::alloc::Global;
use trace_state::state_text;
use wind_base::NoMemory;
use wind_outside::{Device, Folder, Sink};
use wind_session::{Board, count_board};

/// Makes steps, at most `limit`, and puts the board that they leave. The modules that the steps need
/// are fetched from the folder.
///
/// # Errors
///
/// `NoMemory` if memory runs out for the text. Then the run is made, and nothing is put.
pub(crate) fn show_state<F: Folder, O: Sink>(
    alloc: Global,
    board: &mut Board,
    folder: &mut F,
    modules: &str,
    out: &mut O,
    limit: u64,
) -> Result<TracedRun, NoMemory>
    requires fresh { (seen ⟦<dyn Device as Device>⟧ board.old).steps ≡ 0 }
    requires bound { limit ≤ most_steps }
    ensures told { IfOk result (λ t. Told
        (Alone t.product (TellsState t.end (seen ⟦<dyn Device as Device>⟧ board.old)
        (O.bytes out.old) (O.bytes out.new)))
        (record { files = F.files folder.old; name = modules.now }) (seen ⟦<dyn Device as Device>⟧ board.old) limit
        (seen ⟦<dyn Device as Device>⟧ board.new) (F.requests folder.old) (F.requests folder.new)) }
    ensures given_up { OnErr result (Told
        TellsNothing
        (record { files = F.files folder.old; name = modules.now }) (seen ⟦<dyn Device as Device>⟧ board.old) limit
        (seen ⟦<dyn Device as Device>⟧ board.new) (F.requests folder.old) (F.requests folder.new)) }
    ensures read_fault { IfOk result (λ t. t.end ≡ ends.ReadFault → Rose (F.faults folder.old) (F.faults folder.new)) }
    ensures fault { IfOk result (λ t. t.end ≡ ends.WriteFault → Rose (O.faults out.old) (O.faults out.new)) }
    ensures keeps { KeepsFiles ⟦<F as Folder>⟧ ⟦<O as Sink>⟧ folder.old out.old folder.new out.new }
{
    let end = count_board(alloc, board, folder, modules, out, limit).end;
    let text = state_text(alloc, board)?;
    Ok(TracedRun::text(put_text(out, &text, end)))
}
