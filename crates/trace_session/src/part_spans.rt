//! The spans of the steps of a choice.

ghost use Rattle.std.specs.Prelude.{◌≡◌, ◌≤◌, ◌+◌, ◌<◌, ◌^◌, ℕ, IfOk, OnOk};
ghost use Rattle.wind_base.specs.Limits.{most_steps};
ghost use Rattle.wind_machine.specs.{State.State, Run.{Answers, after}, Silent.SilentSteps};
ghost use Rattle.wind_session.specs.BoardPlayerBursts.{MovesLast};
ghost use Rattle.wind_session.specs.BoardPlayerSeen.{seen};
ghost use Rattle.board_trace.specs.Snapshots.{snapshot_of};
ghost use Rattle.trace_session.specs.Choice.{choice_state};
ghost use Rattle.trace_session.specs.Chrome.{chart_after, objects_after};
ghost use Rattle.trace_session.specs.Spans.{first_spans, looked_at, looked_by, looked_in, looked_outside, observed_in, opening_spans};

use crate::choice::Choice;
use board_changes::{Spans, TaskView};
use board_trace::{BeforeStep, is_instruction};
use std::alloc::Global;
use trace_state::running_task;
use wind_base::NoMemory;
use wind_machine::silent_law;
use wind_outside::Device;
use wind_session::Board;

// Looks at the tasks of a board.
fn observe(spans: &mut Spans, board: &Board, tasks: &[TaskView]) -> Result<(), NoMemory>
    requires { tasks.now ≡ (snapshot_of (seen ⟦<dyn Device as Device>⟧ board.now).world).tasks }
    ensures { OnOk result (spans.new ≡ observed_in spans.old (seen ⟦<dyn Device as Device>⟧ board.now)) }
{
    spans.observe(board.time(), tasks, running_task(board.world()))
}

// Looks at the tasks before the first step that is shown.
fn open(alloc: Global, spans: &mut Spans, board: &Board, tasks: &[TaskView]) -> Result<(), NoMemory>
    requires { tasks.now ≡ (snapshot_of (seen ⟦<dyn Device as Device>⟧ board.now).world).tasks }
    ensures { OnOk result (spans.new ≡ opening_spans (seen ⟦<dyn Device as Device>⟧ board.now)) }
{
    *spans = Spans::new(alloc);
    observe(spans, board, tasks)
}

/// The spans before the first step of a board, on which these tasks live.
pub(crate) fn opening(
    alloc: Global,
    choice: &Choice,
    board: &Board,
    tasks: &[TaskView],
) -> Result<Spans, NoMemory>
    requires few { (seen ⟦<dyn Device as Device>⟧ board.now).steps + 1 < 2 ^ 64 }
    requires tasks { tasks.now ≡ (snapshot_of (seen ⟦<dyn Device as Device>⟧ board.now).world).tasks }
    ensures { IfOk result (λ spans. spans
        ≡ first_spans (choice_state choice.now) (seen ⟦<dyn Device as Device>⟧ board.now)) }
{
    let mut spans = Spans::new(alloc);
    if choice.has_step(board.steps() + 1) {
        observe(&mut spans, board, tasks)?;
    }
    Ok(spans)
}

// Looks at the tasks after a step; an instruction leaves them as they are.
fn look_at(
    spans: &mut Spans,
    board: &Board,
    before_step: &BeforeStep,
    tasks: &[TaskView],
) -> Result<(), NoMemory>
    requires { tasks.now ≡ (snapshot_of (seen ⟦<dyn Device as Device>⟧ board.now).world).tasks }
    ensures { OnOk result (spans.new
        ≡ looked_at before_step.now spans.old (seen ⟦<dyn Device as Device>⟧ board.now)) }
{
    if is_instruction(before_step, board.output()) {
        return Ok(());
    }
    observe(spans, board, tasks)
}

// Looks at the tasks after a step that is shown. After the last one, all spans end.
fn look_in(
    spans: &mut Spans,
    choice: &Choice,
    board: &Board,
    before_step: &BeforeStep,
    tasks: &[TaskView],
) -> Result<(), NoMemory>
    requires step { before_step.now.step + 1 < 2 ^ 64 }
    requires tasks { tasks.now ≡ (snapshot_of (seen ⟦<dyn Device as Device>⟧ board.now).world).tasks }
    ensures { OnOk result (spans.new ≡ looked_in (choice_state choice.now) before_step.now spans.old
        (seen ⟦<dyn Device as Device>⟧ board.now)) }
{
    look_at(spans, board, before_step, tasks)?;
    if choice.has_step(before_step.step + 1) {
        return Ok(());
    }
    spans.close(board.time())
}

// Looks at the tasks after another step, if the next one is the first that is shown.
fn look_outside(
    alloc: Global,
    spans: &mut Spans,
    choice: &Choice,
    board: &Board,
    before_step: &BeforeStep,
    tasks: &[TaskView],
) -> Result<(), NoMemory>
    requires step { before_step.now.step + 1 < 2 ^ 64 }
    requires tasks { tasks.now ≡ (snapshot_of (seen ⟦<dyn Device as Device>⟧ board.now).world).tasks }
    ensures { OnOk result (spans.new ≡ looked_outside (choice_state choice.now) before_step.now spans.old
        (seen ⟦<dyn Device as Device>⟧ board.now)) }
{
    if !choice.has_step(before_step.step + 1) {
        return Ok(());
    }
    open(alloc, spans, board, tasks)
}

/// Looks at the tasks after a step, as far as the choice has it.
pub(crate) fn look(
    alloc: Global,
    spans: &mut Spans,
    choice: &Choice,
    board: &Board,
    before_step: &BeforeStep,
    tasks: &[TaskView],
) -> Result<(), NoMemory>
    requires step { before_step.now.step + 1 < 2 ^ 64 }
    requires tasks { tasks.now ≡ (snapshot_of (seen ⟦<dyn Device as Device>⟧ board.now).world).tasks }
    ensures { OnOk result (spans.new ≡ looked_by (choice_state choice.now) before_step.now spans.old
        (seen ⟦<dyn Device as Device>⟧ board.now)) }
{
    if choice.has_step(before_step.step) {
        return look_in(spans, choice, board, before_step, tasks);
    }
    look_outside(alloc, spans, choice, board, before_step, tasks)
}

/// Makes instructions at once, at most `most`. They leave what goes on in a choice as it is and have
/// no objects. Returns how many it made.
pub(crate) fn burst_within(board: &mut Board, choice: &Choice, most: u64) -> u64
    requires { (seen ⟦<dyn Device as Device>⟧ board.old).steps + most ≤ most_steps }
    ensures made { SilentSteps result (seen ⟦<dyn Device as Device>⟧ board.old)
        (seen ⟦<dyn Device as Device>⟧ board.new) }
    ensures within { result ≤ most }
    ensures only { 0 < result → MovesLast (seen ⟦<dyn Device as Device>⟧ board.old).world
        (seen ⟦<dyn Device as Device>⟧ board.new).world }
    ensures chart { (said : Answers) (s : State) (i : ℕ) → seen ⟦<dyn Device as Device>⟧ board.old ≡ after said s i
        → chart_after (choice_state choice.now) said s (i + result) ≡ chart_after (choice_state choice.now) said s i }
    ensures objects { (said : Answers) (s : State) (i : ℕ) → seen ⟦<dyn Device as Device>⟧ board.old ≡ after said s i
        → objects_after (choice_state choice.now) said s (i + result)
        ≡ objects_after (choice_state choice.now) said s i }
{
    silent_law();
    // the step after them is like them, so the first and the last step that is shown is none of them
    let alike = choice.most_alike(board.steps(), most);
    board.burst(alike.saturating_sub(1))
}
