//! A run, told as lines for people and as lines of JSON.

ghost use Rattle.std.specs.Prelude.{◌≡◌, ◌≤◌, IfOk, OnErr};
ghost use Rattle.wind_base.specs.Limits.{most_steps};
ghost use Rattle.wind_outside.specs.Counts.{Rose};
ghost use Rattle.wind_session.specs.{Keeping.KeepsFiles, Telling.Told};
ghost use Rattle.wind_session.specs.BoardPlayerSeen.{seen};
ghost use Rattle.wind_session.specs.declared.run.RunEnd.TheVariants as ends;
ghost use Rattle.trace_session.specs.Choice.{choice_state};
ghost use Rattle.trace_session.specs.Traced.{Alone, IsLastObject, IsObjectOf, TellsEvents, TellsLines, TellsPart, TellsSome};

use crate::choice::Choice;
use crate::events::tell_lines;
use crate::traced::TracedRun;
use std::alloc::Global;
use trace_json::JsonLines;
use trace_text::TextLines;
use wind_base::NoMemory;
use wind_outside::{Device, Folder, Sink};
use wind_session::Board;

/// Makes steps, at most `limit`, and puts a line for each thing that happened in them and is chosen,
/// and a last line. The modules that the steps need are fetched from the folder.
///
/// # Errors
///
/// `NoMemory` if memory runs out for the lines. Then the run is given up.
pub(crate) fn tell_events<F: Folder, O: Sink>(
    alloc: Global,
    choice: &Choice,
    board: &mut Board,
    folder: &mut F,
    modules: &str,
    out: &mut O,
    limit: u64,
) -> Result<TracedRun, NoMemory>
    requires fresh { (seen ⟦<dyn Device as Device>⟧ board.old).steps ≡ 0 }
    requires bound { limit ≤ most_steps }
    ensures told { IfOk result (λ t. Told
        (Alone t.product (TellsEvents (choice_state choice.now) t.end (seen ⟦<dyn Device as Device>⟧ board.old)
        (O.bytes out.old) (O.bytes out.new)))
        (record { files = F.files folder.old; name = modules.now }) (seen ⟦<dyn Device as Device>⟧ board.old) limit
        (seen ⟦<dyn Device as Device>⟧ board.new) (F.requests folder.old) (F.requests folder.new)) }
    ensures given_up { OnErr result (Told
        (TellsPart (choice_state choice.now) (seen ⟦<dyn Device as Device>⟧ board.old)
        (O.bytes out.old) (O.bytes out.new))
        (record { files = F.files folder.old; name = modules.now }) (seen ⟦<dyn Device as Device>⟧ board.old) limit
        (seen ⟦<dyn Device as Device>⟧ board.new) (F.requests folder.old) (F.requests folder.new)) }
    ensures read_fault { IfOk result (λ t. t.end ≡ ends.ReadFault → Rose (F.faults folder.old) (F.faults folder.new)) }
    ensures fault { IfOk result (λ t. t.end ≡ ends.WriteFault → Rose (O.faults out.old) (O.faults out.new)) }
    ensures keeps { KeepsFiles ⟦<F as Folder>⟧ ⟦<O as Sink>⟧ folder.old out.old folder.new out.new }
{
    let form = TextLines::new(alloc)?;
    tell_lines(alloc, form, choice, board, folder, modules, out, limit)
}

/// The same, with a line of JSON in place of each line.
///
/// # Errors
///
/// `NoMemory` if memory runs out for the lines. Then the run is given up.
pub(crate) fn tell_objects<F: Folder, O: Sink>(
    alloc: Global,
    choice: &Choice,
    board: &mut Board,
    folder: &mut F,
    modules: &str,
    out: &mut O,
    limit: u64,
) -> Result<TracedRun, NoMemory>
    requires fresh { (seen ⟦<dyn Device as Device>⟧ board.old).steps ≡ 0 }
    requires bound { limit ≤ most_steps }
    ensures told { IfOk result (λ t. Told
        (Alone t.product (TellsLines IsObjectOf IsLastObject (choice_state choice.now) t.end
        (seen ⟦<dyn Device as Device>⟧ board.old) (O.bytes out.old) (O.bytes out.new)))
        (record { files = F.files folder.old; name = modules.now }) (seen ⟦<dyn Device as Device>⟧ board.old) limit
        (seen ⟦<dyn Device as Device>⟧ board.new) (F.requests folder.old) (F.requests folder.new)) }
    ensures given_up { OnErr result (Told
        (TellsSome IsObjectOf (choice_state choice.now) (seen ⟦<dyn Device as Device>⟧ board.old)
        (O.bytes out.old) (O.bytes out.new))
        (record { files = F.files folder.old; name = modules.now }) (seen ⟦<dyn Device as Device>⟧ board.old) limit
        (seen ⟦<dyn Device as Device>⟧ board.new) (F.requests folder.old) (F.requests folder.new)) }
    ensures read_fault { IfOk result (λ t. t.end ≡ ends.ReadFault → Rose (F.faults folder.old) (F.faults folder.new)) }
    ensures fault { IfOk result (λ t. t.end ≡ ends.WriteFault → Rose (O.faults out.old) (O.faults out.new)) }
    ensures keeps { KeepsFiles ⟦<F as Folder>⟧ ⟦<O as Sink>⟧ folder.old out.old folder.new out.new }
{
    let form = JsonLines::new(alloc);
    tell_lines(alloc, form, choice, board, folder, modules, out, limit)
}
