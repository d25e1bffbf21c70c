//! What follows from the definitions of a trace alone.

ghost use Rattle.board_trace.specs.Laws.{ReplyLaw, ErrorLaw, StepReplayLaw, TimeLaw, WaitEndLaw};
ghost use Rattle.board_trace.specs.Observed.{PartTilingLaw, RunOneRunsLaw, RunTilingLaw};
ghost use Rattle.board_trace.specs.Traps.{CauseLaw};

use board_changes::spans_law;
use wind_machine::{extend_law, run_law, step_law};

/// The law of replies: the happenings of a step tell exactly one call if the step makes one, with
/// the reply of that call. So a line tells a refusal exactly if the call was refused, with its
/// error.
pub fn reply_law()
    ensures { ReplyLaw }
{}

/// The law of errors: each error of the kernel's calls is found by its number.
pub fn error_law()
    ensures { ErrorLaw }
{}

/// The law of ends of waits: if the kernel ends a task's wait with an answer, and an error if there
/// is one, the end is told with that answer and that error.
pub fn wait_end_law()
    ensures { WaitEndLaw }
{}

/// The law of replay: in each step that isn't one instruction, from a state with the invariant,
/// whether a task lives, its wait, wake and suspension, its priority and its normal priority after
/// the step follow from those before it and the changes that name it.
pub fn step_replay_law()
    ensures { StepReplayLaw }
{
    step_law();
}

/// The law of causes: in each step, from a state with the invariant, in which a task or routine
/// executes a word, an exception is told exactly if the machine traps. Its cause is that trap, with
/// its word or its data address.
pub fn cause_law()
    ensures { CauseLaw }
{}

/// The law of time: along the lines of a run, board time never decreases.
pub fn time_law()
    ensures { TimeLaw }
{
    extend_law();
}

/// The law of a run's spans, for every console file, tick file and list of devices, under both rules
/// of inheritance and on both boards: at each time before the end, the spans of a task say once how
/// it looked when it was last observed, if it lived then, and nothing if it didn't. At most one task
/// runs at a time. The spans of a part of a run tile that part, and are clipped at its ends.
pub fn run_spans_law()
    ensures tiles { RunTilingLaw }
    ensures one { RunOneRunsLaw }
    ensures parts { PartTilingLaw }
{
    run_law();
    extend_law();
    spans_law();
}
