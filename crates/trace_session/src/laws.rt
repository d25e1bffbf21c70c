//! Laws of the lines of a run, each as the clause of a function.

ghost use Rattle.trace_session.specs.Bursts.{SilentLinesLaw};
ghost use Rattle.trace_session.specs.ChartLaws.{ChartLaw};
ghost use Rattle.trace_session.specs.Laws.{EverythingLaw, LinesLaw, SummarySpansLaw, SummaryTasksLaw, PartLaw};

use trace_summary::tasks_law;
use trace_text::joining_law;
use wind_machine::{silent_law, step_law};

/// Instructions that follow others of the same task or routine are one line with them.
pub(crate) fn silent_lines_law()
    ensures { SilentLinesLaw }
{
    joining_law();
    silent_law();
}

/// Joining lines of instructions keeps the number of instructions and all other lines. What the
/// lines say is written is what the steps write.
pub fn lines_law()
    ensures { LinesLaw }
{}

/// If everything is chosen, the lines are those of the run, and a picture shows all its areas.
pub fn everything_law()
    ensures { EverythingLaw }
{}

/// The spans of a run's summary are those of a picture of the whole run.
pub fn summary_spans_law()
    ensures { SummarySpansLaw }
{}

/// The summary of a run has one row for each task that lives at the start, and one for each that a
/// later step makes.
pub fn summary_tasks_law()
    ensures { SummaryTasksLaw }
{
    tasks_law();
}

/// The law of parts: the spans of a choice's steps are those of the part of the run that has these
/// steps. So they tile that part, by `board_trace::run_spans_law`.
pub fn part_law()
    ensures { PartLaw }
{
    step_law();
}

/// The law of a run's objects of the trace-event format: the spans of tasks among them are those of the
/// choice's steps, each once, and each flow begins with whoever ended the wait.
pub fn chart_law()
    ensures { ChartLaw }
{
    step_law();
}
