//! A run, told in the form that is asked for.

ghost use Rattle.std.specs.Prelude.{◌≡◌, ◌≤◌, IfOk, OnErr};
ghost use Rattle.wind_base.specs.Limits.{most_steps};
ghost use Rattle.wind_outside.specs.Counts.{Rose};
ghost use Rattle.wind_session.specs.{Keeping.KeepsFiles, Telling.Told};
ghost use Rattle.wind_session.specs.BoardPlayerSeen.{seen};
ghost use Rattle.wind_session.specs.declared.run.RunEnd.TheVariants as ends;
ghost use Rattle.trace_session.specs.Choice.{choice_state};
ghost use Rattle.trace_session.specs.Forms.{TellsForm, TellsLess};

use crate::choice::Choice;
use crate::chrome::tell_chrome;
use crate::coverage::tell_coverage;
use crate::line_forms::{tell_events, tell_objects};
use crate::state::show_state;
use crate::summary::{tell_summary, tell_table};
use crate::timeline::draw_timeline;
use crate::traced::TracedRun;
use std::alloc::Global;
use wind_base::NoMemory;
use wind_outside::{Device, Folder, Sink};
use wind_session::Board;

/// The form in which a run is told.
#[derive(Clone, Copy, Debug, PartialEq, Eq)]
pub enum Form {
    /// One line for each thing that happened, and a last line.
    Events,
    /// The same, as JSON.
    JsonLines,
    /// A list of objects of the trace-event format.
    Chrome,
    /// A picture.
    Timeline,
    /// The board that is left.
    State,
    /// The words of modules that were executed.
    Coverage,
    /// A table of figures.
    Summary,
    /// The figures as JSON.
    SummaryJson,
}

/// Makes steps, at most `limit`, and puts what happened in them in this form. Of events and spans
/// only those of the choice are told. The modules that the steps need are fetched from the folder.
///
/// # Errors
///
/// `NoMemory` if memory runs out for the trace. Then the run is given up.
pub fn trace_board<F: Folder, O: Sink>(
    alloc: Global,
    form: Form,
    choice: &Choice,
    board: &mut Board,
    folder: &mut F,
    modules: &str,
    out: &mut O,
    limit: u64,
) -> Result<TracedRun, NoMemory>
    requires fresh { (seen ⟦<dyn Device as Device>⟧ board.old).steps ≡ 0 }
    requires bound { limit ≤ most_steps }
    ensures told { IfOk result (λ t. Told
        (TellsForm form (choice_state choice.now) t.product t.end
        (seen ⟦<dyn Device as Device>⟧ board.old) (O.bytes out.old) (O.bytes out.new))
        (record { files = F.files folder.old; name = modules.now }) (seen ⟦<dyn Device as Device>⟧ board.old) limit
        (seen ⟦<dyn Device as Device>⟧ board.new) (F.requests folder.old) (F.requests folder.new)) }
    ensures given_up { OnErr result (Told
        (TellsLess form (choice_state choice.now) (seen ⟦<dyn Device as Device>⟧ board.old)
        (O.bytes out.old) (O.bytes out.new))
        (record { files = F.files folder.old; name = modules.now }) (seen ⟦<dyn Device as Device>⟧ board.old) limit
        (seen ⟦<dyn Device as Device>⟧ board.new) (F.requests folder.old) (F.requests folder.new)) }
    ensures read_fault { IfOk result (λ t. t.end ≡ ends.ReadFault → Rose (F.faults folder.old) (F.faults folder.new)) }
    ensures fault { IfOk result (λ t. t.end ≡ ends.WriteFault → Rose (O.faults out.old) (O.faults out.new)) }
    ensures keeps { KeepsFiles ⟦<F as Folder>⟧ ⟦<O as Sink>⟧ folder.old out.old folder.new out.new }
{
    match form {
        Form::Events => tell_events(alloc, choice, board, folder, modules, out, limit),
        Form::JsonLines => tell_objects(alloc, choice, board, folder, modules, out, limit),
        Form::Chrome => tell_chrome(alloc, choice, board, folder, modules, out, limit),
        Form::Timeline => draw_timeline(alloc, choice, board, folder, modules, out, limit),
        Form::State => show_state(alloc, board, folder, modules, out, limit),
        Form::Coverage => tell_coverage(alloc, board, folder, modules, out, limit),
        Form::Summary => tell_table(alloc, board, folder, modules, out, limit),
        Form::SummaryJson => tell_summary(alloc, board, folder, modules, out, limit),
    }
}
