//! What is counted of the steps of a run, and the spans of its tasks.

ghost use Rattle.std.specs.Prelude.{◌≡◌, ℕ, List, [], OnOk, IfOk, map};
ghost use Rattle.wind_machine.specs.LiveLoadingSaid.{FileSaid};
ghost use Rattle.wind_machine.specs.{State.State, Good.Good, Replies.step_reply};
ghost use Rattle.wind_session.specs.BoardPlayerBursts.{MovesOnly};
ghost use Rattle.wind_session.specs.BoardPlayerSeen.{last_reply, seen};
ghost use Rattle.board_changes.specs.declared.view.TaskView.{TaskView};
ghost use Rattle.board_trace.specs.Before.{before_step as before_step_lem};
ghost use Rattle.board_trace.specs.Runs.{Line, step_lines, with_line, with_lines};
ghost use Rattle.board_trace.specs.Snapshots.{snapshot_of};
ghost use Rattle.board_trace.specs.Subjects.{name_of, subject_actor};
ghost use Rattle.board_trace.specs.Views.{snapshot_state};
ghost use Rattle.trace_summary.specs.Summaries.{tally_of, tally_state};
ghost use Rattle.trace_session.specs.Steps.{line_of};
ghost use Rattle.trace_session.specs.Watches.{KeepsWatch};
ghost use Rattle.trace_session.specs.Watching.{WatchState, no_watch, watched, watched_by};

use crate::reader::StepReader;
use crate::watch::Watch;
use board_trace::{BeforeStep, Happening, Snapshot, actor_name, is_instruction, subject_name};
use kernel_world::Actor;
use std::alloc::Global;
use trace_summary::Tally;
use wind_base::NoMemory;
use wind_outside::Device;
use wind_session::Board;

/// What is counted of a run, its spans, and what reads its next step.
#[derive(Drop)]
pub(crate) struct Counter {
    /// What was counted.
    pub(crate) tally: Tally,
    /// The spans.
    pub(crate) watch: Watch,
    /// What reads the next step.
    pub(crate) reader: StepReader,
}

// Adds the lines of what happened in a step.
fn add_lines(
    tally: &mut Tally,
    list: &[Happening],
    before_step: &BeforeStep,
    before: &Snapshot,
    after: &Snapshot,
) -> Result<(), NoMemory>
    ensures { OnOk result ((views : List TaskView) (made : List Line)
        → tally_state tally.old ≡ tally_of views made
        → tally_state tally.new ≡ tally_of views (with_lines
        (map (line_of before_step.now (snapshot_state before.now) (snapshot_state after.now)) list.now) made)) }
{
    for happening in list {
        let name = subject_name(before, after, happening);
        tally.add(before_step.time, name, happening)?;
    }
    Ok(())
}

impl Counter {
    /// Nothing was counted yet of the run of this board.
    pub(crate) fn new(alloc: Global, board: &Board) -> Result<Counter, NoMemory>
        ensures tally { IfOk result (λ c. tally_state c.tally
            ≡ tally_of (snapshot_of (seen ⟦<dyn Device as Device>⟧ board.now).world).tasks []) }
        ensures watch { IfOk result (λ c. KeepsWatch c.watch
            (watched no_watch (seen ⟦<dyn Device as Device>⟧ board.now))) }
        ensures before { IfOk result (λ c. snapshot_state c.reader.before
            ≡ snapshot_of (seen ⟦<dyn Device as Device>⟧ board.now).world) }
    {
        let reader = StepReader::new(alloc, board)?;
        let tally = Tally::new(alloc, &reader.before.tasks)?;
        let mut watch = Watch::new(alloc);
        watch.look(board, &reader.before.tasks)?;
        Ok(Counter {
            tally,
            watch,
            reader,
        })
    }

    /// Instructions of a task or routine were made at once, from this board time on.
    pub(crate) fn add_instructions(
        &mut self,
        board: &Board,
        who: &Actor,
        count: u64,
        time: u128,
    ) -> Result<(), NoMemory>
        ensures tally { OnOk result ((views : List TaskView) (made : List Line) (step : ℕ)
            → tally_state self.old.tally ≡ tally_of views made
            → tally_state self.new.tally ≡ tally_of views (with_line (record {
              time = time;
              step = step;
              name = name_of (snapshot_state self.old.reader.before) (subject_actor who.now);
              what = Happening.Instructions who.now count;
            }) made)) }
        ensures watch { OnOk result (self.new.watch ≡ self.old.watch) }
        ensures before { OnOk result ((s : State) → Good s
            → MovesOnly who.now s.world (seen ⟦<dyn Device as Device>⟧ board.now).world
            → snapshot_state self.old.reader.before ≡ snapshot_of s.world
            → snapshot_state self.new.reader.before ≡ snapshot_of (seen ⟦<dyn Device as Device>⟧ board.now).world) }
    {
        let name = actor_name(&self.reader.before, *who);
        self.tally
            .add(time, name, &Happening::Instructions { who: *who, count })?;
        self.reader.skip(board, who);
        Ok(())
    }

    // Looks at the tasks after a step. An instruction leaves their spans as they are.
    fn look(&mut self, board: &Board, before_step: &BeforeStep) -> Result<(), NoMemory>
        requires { snapshot_state self.old.reader.after ≡ snapshot_of (seen ⟦<dyn Device as Device>⟧ board.now).world }
        ensures watch { OnOk result ((w : WatchState) → KeepsWatch self.old.watch w
            → KeepsWatch self.new.watch
            (watched_by before_step.now w (seen ⟦<dyn Device as Device>⟧ board.now))) }
        ensures tally { OnOk result (self.new.tally ≡ self.old.tally) }
        ensures reader { OnOk result (self.new.reader ≡ self.old.reader) }
    {
        if is_instruction(before_step, board.output()) {
            return Ok(());
        }
        self.watch.look(board, &self.reader.after.tasks)?;
        Ok(())
    }

    /// A step was made: adds the lines of what happened in it, and looks at the tasks.
    pub(crate) fn add_step(
        &mut self,
        board: &Board,
        before_step: &BeforeStep,
    ) -> Result<(), NoMemory>
        ensures tally { OnOk result ((said : FileSaid) (s : State) (views : List TaskView) (made : List Line)
            → before_step.now ≡ before_step_lem s → snapshot_state self.old.reader.before ≡ snapshot_of s.world
            → last_reply board.now ≡ step_reply said s
            → tally_state self.old.tally ≡ tally_of views made
            → tally_state self.new.tally ≡ tally_of views
            (with_lines (step_lines said s (seen ⟦<dyn Device as Device>⟧ board.now)) made)) }
        ensures watch { OnOk result ((w : WatchState) → KeepsWatch self.old.watch w
            → KeepsWatch self.new.watch
            (watched_by before_step.now w (seen ⟦<dyn Device as Device>⟧ board.now))) }
        ensures before { OnOk result (snapshot_state self.new.reader.before
            ≡ snapshot_of (seen ⟦<dyn Device as Device>⟧ board.now).world) }
    {
        let reader = &mut self.reader;
        reader.read(board, before_step)?;
        add_lines(
            &mut self.tally,
            &reader.list,
            before_step,
            &reader.before,
            &reader.after,
        )?;
        self.look(board, before_step)?;
        self.reader.go_on();
        Ok(())
    }
}
