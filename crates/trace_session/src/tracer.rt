//! The lines that a trace makes of steps.

ghost use Rattle.std.specs.Prelude.{◌≡◌, ◌≤◌, ◌<◌, ◌+◌, ◌++◌, ◌^◌, ℕ, List, [], None, OnOk, IfOk, length, map};
ghost use Rattle.std.specs.List.{filter, sum_by};
ghost use Rattle.wind_machine.specs.LiveLoadingSaid.{FileSaid};
ghost use Rattle.wind_machine.specs.State.{State};
ghost use Rattle.wind_machine.specs.Good.{Good};
ghost use Rattle.wind_machine.specs.Replies.{step_reply};
ghost use Rattle.wind_session.specs.BoardPlayerBursts.{MovesOnly};
ghost use Rattle.wind_session.specs.BoardPlayerSeen.{last_reply, seen};
ghost use Rattle.board_trace.specs.Before.{before_step as before_step_lem};
ghost use Rattle.board_trace.specs.Runs.{Line, with_lines};
ghost use Rattle.board_trace.specs.Snapshots.{snapshot_of};
ghost use Rattle.board_trace.specs.Subjects.{name_of, subject_actor};
ghost use Rattle.board_trace.specs.Views.{snapshot_state};
ghost use Rattle.trace_text.specs.Forms.{HasLines, Joins};
ghost use Rattle.trace_text.specs.Pages.{Ends, count_in, count_of};
ghost use Rattle.trace_session.specs.Choice.{choice_state, chosen, chosen_in, is_chosen, with_if};
ghost use Rattle.trace_session.specs.Steps.{line_of};
ghost use Rattle.trace_session.specs.Traced.{how_text, outcome_of};

use crate::choice::Choice;
use crate::reader::StepReader;
use board_trace::{BeforeStep, Happening, Snapshot, actor_name, subject_name};
use kernel_world::Actor;
use std::alloc::Global;
use trace_text::{LineForm, Moment, Outcome, Page};
use wind_base::NoMemory;
use wind_outside::Device;
use wind_session::{Board, RunEnd};

/// What a trace keeps between steps.
#[derive(Drop)]
pub(crate) struct Tracer<'a, L> {
    /// What of the run is told.
    pub(crate) choice: &'a Choice,
    /// The lines that were not put yet.
    pub(crate) page: Page<L>,
    /// What reads the next step.
    pub(crate) reader: StepReader,
}

// Adds the line of a happening, if it is chosen.
fn add_chosen<L: LineForm>(
    page: &mut Page<L>,
    choice: &Choice,
    before_step: &BeforeStep,
    name: &[u8],
    happening: &Happening,
) -> Result<(), NoMemory>
    requires fits { count_in page.old.growing + count_of happening.now < 2 ^ 64 }
    requires short { length name.now ≤ 31 }
    ensures lines { OnOk result ((given : List ℕ) (made : List Line) → Ends L.is_line given page.old made
        → Ends L.is_line given page.new (with_if (chosen (choice_state choice.now) before_step.now.step happening.now) (record {
          time = before_step.now.time;
          step = before_step.now.step;
          name = name.now;
          what = happening.now;
        }) made)) }
    ensures waits { OnOk result (count_in page.new.growing ≤ count_in page.old.growing + count_of happening.now) }
{
    if !choice.has(before_step.step, happening) {
        return Ok(());
    }
    page.add(before_step.time, before_step.step, name, happening)
}

// Adds the lines of what happened in a step that are chosen.
fn add_lines<L: LineForm>(
    page: &mut Page<L>,
    choice: &Choice,
    list: &[Happening],
    before_step: &BeforeStep,
    before: &Snapshot,
    after: &Snapshot,
) -> Result<(), NoMemory>
    requires { count_in page.old.growing + sum_by count_of list.now < 2 ^ 64 }
    ensures lines { OnOk result ((given : List ℕ) (made : List Line) → Ends L.is_line given page.old made
        → Ends L.is_line given page.new (with_lines (filter (is_chosen (choice_state choice.now))
        (map (line_of before_step.now (snapshot_state before.now) (snapshot_state after.now)) list.now)) made)) }
    ensures waits { OnOk result (count_in page.new.growing ≤ count_in page.old.growing + sum_by count_of list.now) }
{
    for happening in list {
        let name = subject_name(before, after, happening);
        add_chosen(page, choice, before_step, name, happening)?;
    }
    Ok(())
}

/// What the last line says of how a run ended.
pub(crate) fn how(end: RunEnd) -> &'static [u8]
    ensures { result.now ≡ how_text end }
{
    match end {
        RunEnd::Quiet => b"no step is left",
        RunEnd::Limit => b"the limit of steps is reached",
        RunEnd::ReadFault => b"a file could not be read",
        RunEnd::WriteFault => b"writing failed",
        RunEnd::NoMemory => b"host memory ran out",
    }
}

impl<'a, L: LineForm> Tracer<'a, L> {
    /// A trace of a board before its first step, with lines in this form.
    pub(crate) fn new(
        alloc: Global,
        form: L,
        choice: &'a Choice,
        board: &Board,
    ) -> Result<Tracer<'a, L>, NoMemory>
        ensures choice { IfOk result (λ t. t.choice ≡ choice.entry) }
        ensures page { IfOk result (λ t. t.page ≡ record { text = []; growing = None }) }
        ensures before { IfOk result (λ t. snapshot_state t.reader.before
            ≡ snapshot_of (seen ⟦<dyn Device as Device>⟧ board.now).world) }
    {
        let page = Page::new(alloc, form);
        let reader = StepReader::new(alloc, board)?;
        Ok(Tracer {
            choice,
            page,
            reader,
        })
    }

    /// Instructions of a task or routine were made at once: the first in the step with this number,
    /// which began at this board time.
    pub(crate) fn tell_instructions(
        &mut self,
        board: &Board,
        who: &Actor,
        count: u64,
        time: u128,
        step: u64,
    ) -> Result<(), NoMemory>
        requires { count_in self.old.page.growing + count < 2 ^ 64 }
        ensures lines { OnOk result ((given : List ℕ) (made : List Line) → Ends L.is_line given self.old.page made
            → Ends L.is_line given self.new.page (with_if
            (chosen (choice_state self.old.choice.now) step (Happening.Instructions who.now 1)) (record {
              time = time;
              step = step;
              name = name_of (snapshot_state self.old.reader.before) (subject_actor who.now);
              what = Happening.Instructions who.now count;
            }) made)) }
        ensures choice { OnOk result (self.new.choice ≡ self.old.choice) }
        ensures waits { OnOk result (count_in self.new.page.growing ≤ count_in self.old.page.growing + count) }
        ensures before { OnOk result ((s : State) → Good s
            → MovesOnly who.now s.world (seen ⟦<dyn Device as Device>⟧ board.now).world
            → snapshot_state self.old.reader.before ≡ snapshot_of s.world
            → snapshot_state self.new.reader.before ≡ snapshot_of (seen ⟦<dyn Device as Device>⟧ board.now).world) }
    {
        if self.choice.has_instructions(step, *who) {
            let name = actor_name(&self.reader.before, *who);
            self.page.add_instructions(*who, count, time, step, name)?;
        }
        self.reader.skip(board, who);
        Ok(())
    }

    /// A step was made: adds the lines of what happened in it.
    pub(crate) fn add_step(
        &mut self,
        board: &Board,
        before_step: &BeforeStep,
    ) -> Result<(), NoMemory>
        requires { count_in self.old.page.growing + 1 < 2 ^ 64 }
        ensures lines { OnOk result ((said : FileSaid) (s : State) (given : List ℕ) (made : List Line)
            → before_step.now ≡ before_step_lem s → snapshot_state self.old.reader.before ≡ snapshot_of s.world
            → last_reply board.now ≡ step_reply said s
            → Ends L.is_line given self.old.page made → Ends L.is_line given self.new.page
            (with_lines (chosen_in (choice_state self.old.choice.now) said s
            (seen ⟦<dyn Device as Device>⟧ board.now)) made)) }
        ensures choice { OnOk result (self.new.choice ≡ self.old.choice) }
        ensures waits { OnOk result (count_in self.new.page.growing ≤ count_in self.old.page.growing + 1) }
        ensures before { OnOk result (snapshot_state self.new.reader.before
            ≡ snapshot_of (seen ⟦<dyn Device as Device>⟧ board.now).world) }
    {
        let reader = &mut self.reader;
        reader.read(board, before_step)?;
        add_lines(
            &mut self.page,
            self.choice,
            &reader.list,
            before_step,
            &reader.before,
            &reader.after,
        )?;
        reader.go_on();
        Ok(())
    }

    /// The run has ended: tells how, and what each task does.
    pub(crate) fn tell_end(&mut self, board: &Board, end: RunEnd) -> Result<(), NoMemory>
        requires { snapshot_state self.old.reader.before
            ≡ snapshot_of (seen ⟦<dyn Device as Device>⟧ board.now).world }
        ensures { OnOk result ((given : List ℕ) (made : List Line) → Ends L.is_line given self.old.page made
            → Joins (HasLines L.is_line made) (L.is_end (outcome_of end (seen ⟦<dyn Device as Device>⟧ board.now)))
            (given ++ self.new.page.text)) }
    {
        self.page.finish()?;
        let outcome = Outcome {
            at: Moment {
                time: board.time(),
                step: board.steps(),
            },
            how: how(end),
            tasks: &self.reader.before.tasks,
            left: board.left().len() as u64,
        };
        self.page.add_end(&outcome)
    }
}
