//! What a picture of a run needs of each step: the areas of the tasks' spans, and its scene.

ghost use Rattle.std.specs.Prelude.{◌≡◌, ◌++◌, ◌+◌, ◌<◌, ◌^◌, [], OnOk, IfOk};
ghost use Rattle.wind_session.specs.BoardPlayerSeen.{seen};
ghost use Rattle.board_trace.specs.Snapshots.{snapshot_of};
ghost use Rattle.board_trace.specs.Views.{snapshot_state};
ghost use Rattle.board_changes.specs.Spans.{closed};
ghost use Rattle.trace_session.specs.Choice.{choice_state, is_step};
ghost use Rattle.trace_session.specs.Shown.{Carries, Pictures, shown_areas};
ghost use Rattle.trace_session.specs.Spans.{first_spans, looked_at, looked_by, looked_in, observed_in, opening_spans};

use crate::choice::Choice;
use crate::reader::StepReader;
use crate::scene::{Moment, Scene};
use crate::shown::add_spans;
use board_changes::Spans;
use board_trace::{BeforeStep, Snapshot, is_instruction};
use std::alloc::Global;
use std::mem;
use trace_picture::Areas;
use trace_state::running_task;
use wind_base::NoMemory;
use wind_outside::Device;
use wind_session::Board;

/// What is kept of a run for its picture.
#[derive(Drop)]
pub(crate) struct Observer<'a> {
    alloc: Global,
    /// What of the run is shown.
    pub(crate) choice: &'a Choice,
    reader: StepReader,
    /// The spans of the tasks that go on.
    pub(crate) spans: Spans,
    /// The areas of those that have ended, if they are shown.
    pub(crate) areas: Areas,
    /// What else the picture shows.
    pub(crate) scene: Scene,
}

// Looks at the tasks of a snapshot of this board.
fn observe(spans: &mut Spans, snapshot: &Snapshot, board: &Board) -> Result<(), NoMemory>
    requires { snapshot_state snapshot.now ≡ snapshot_of (seen ⟦<dyn Device as Device>⟧ board.now).world }
    ensures { OnOk result (spans.new ≡ observed_in spans.old (seen ⟦<dyn Device as Device>⟧ board.now)) }
{
    let (time, runner) = (board.time(), running_task(board.world()));
    spans.observe(time, &snapshot.tasks, runner)
}

impl<'a> Observer<'a> {
    /// Looks at a board before its first step.
    pub(crate) fn new(
        alloc: Global,
        choice: &'a Choice,
        board: &Board,
    ) -> Result<Observer<'a>, NoMemory>
        requires { (seen ⟦<dyn Device as Device>⟧ board.now).steps + 1 < 2 ^ 64 }
        ensures choice { IfOk result (λ o. o.choice ≡ choice.entry) }
        ensures picture { IfOk result (λ o. Pictures (choice_state choice.now) o.spans o.areas
            (first_spans (choice_state choice.now) (seen ⟦<dyn Device as Device>⟧ board.now))) }
    {
        let mut observer = Observer {
            alloc,
            choice,
            reader: StepReader::new(alloc, board)?,
            spans: Spans::new(alloc),
            areas: Areas::new(alloc),
            scene: Scene::new(alloc),
        };
        if !choice.has_step(board.steps() + 1) {
            return Ok(observer);
        }
        observer.open(board)?;
        Ok(observer)
    }

    // The next step is the first that is shown: looks at the tasks.
    fn open(&mut self, board: &Board) -> Result<(), NoMemory>
        ensures choice { OnOk result (self.new.choice ≡ self.old.choice) }
        ensures picture { OnOk result (Pictures (choice_state self.old.choice.now) self.new.spans self.new.areas
            (opening_spans (seen ⟦<dyn Device as Device>⟧ board.now))) }
    {
        self.reader.restart(board)?;
        self.spans = Spans::new(self.alloc);
        self.areas = Areas::new(self.alloc);
        observe(&mut self.spans, &self.reader.before, board)?;
        self.scene.open(board, &self.reader.before)
    }

    // Adds the areas of the spans that have ended, and forgets these.
    fn keep_areas(&mut self) -> Result<(), NoMemory>
        ensures choice { OnOk result (self.new.choice ≡ self.old.choice) }
        ensures spans { OnOk result (self.new.spans ≡ record self.old.spans { done = [] }) }
        ensures areas { OnOk result (self.new.areas
            ≡ self.old.areas ++ shown_areas (choice_state self.old.choice.now) self.old.spans.done) }
    {
        add_spans(&mut self.areas, self.choice, self.spans.done())?;
        self.spans.forget_done();
        Ok(())
    }

    // Looks at the tasks after a step.
    fn look_at_tasks(&mut self, board: &Board) -> Result<(), NoMemory>
        requires { snapshot_state self.old.reader.after ≡ snapshot_of (seen ⟦<dyn Device as Device>⟧ board.now).world }
        ensures choice { OnOk result (self.new.choice ≡ self.old.choice) }
        ensures picture { OnOk result (Carries (choice_state self.old.choice.now) self.old.spans self.old.areas
            self.new.spans self.new.areas (λ spans. observed_in spans (seen ⟦<dyn Device as Device>⟧ board.now))) }
    {
        observe(&mut self.spans, &self.reader.after, board)?;
        self.keep_areas()
    }

    // Looks at a board after a step. An instruction changes nothing that a picture shows.
    fn look_at(&mut self, board: &Board, before_step: &BeforeStep) -> Result<(), NoMemory>
        ensures choice { OnOk result (self.new.choice ≡ self.old.choice) }
        ensures picture { OnOk result (Carries (choice_state self.old.choice.now) self.old.spans self.old.areas
            self.new.spans self.new.areas (λ spans. looked_at before_step.now spans (seen ⟦<dyn Device as Device>⟧ board.now))) }
    {
        if is_instruction(before_step, board.output()) {
            return Ok(());
        }
        self.reader.read(board, before_step)?;
        let reader = &self.reader;
        let moment = Moment {
            choice: self.choice,
            before_step,
            time: board.time(),
            after: &reader.after,
        };
        self.scene.look(board)?;
        self.scene.note_all(&reader.list, &moment)?;
        self.look_at_tasks(board)?;
        self.reader.go_on();
        Ok(())
    }

    // Looks at a board after a step that is shown. After the last one, all spans end.
    fn look_in(
        &mut self,
        board: &Board,
        before_step: &BeforeStep,
        goes_on: bool,
    ) -> Result<(), NoMemory>
        requires { goes_on ≡ is_step (choice_state self.old.choice.now) (before_step.now.step + 1) }
        ensures choice { OnOk result (self.new.choice ≡ self.old.choice) }
        ensures picture { OnOk result (Carries (choice_state self.old.choice.now) self.old.spans self.old.areas
            self.new.spans self.new.areas (λ spans. looked_in (choice_state self.old.choice.now)
            before_step.now spans (seen ⟦<dyn Device as Device>⟧ board.now))) }
    {
        self.look_at(board, before_step)?;
        if goes_on {
            return Ok(());
        }
        self.close(board)
    }

    /// Looks at a board after a step.
    pub(crate) fn look(&mut self, board: &Board, before_step: &BeforeStep) -> Result<(), NoMemory>
        requires { before_step.now.step + 1 < 2 ^ 64 }
        ensures choice { OnOk result (self.new.choice ≡ self.old.choice) }
        ensures picture { OnOk result (Carries (choice_state self.old.choice.now) self.old.spans self.old.areas
            self.new.spans self.new.areas (λ spans. looked_by (choice_state self.old.choice.now)
            before_step.now spans (seen ⟦<dyn Device as Device>⟧ board.now))) }
    {
        let is_next = self.choice.has_step(before_step.step + 1);
        if self.choice.has_step(before_step.step) {
            return self.look_in(board, before_step, is_next);
        }
        if is_next {
            return self.open(board);
        }
        Ok(())
    }

    /// No further step is shown: all spans end.
    pub(crate) fn close(&mut self, board: &Board) -> Result<(), NoMemory>
        ensures choice { OnOk result (self.new.choice ≡ self.old.choice) }
        ensures picture { OnOk result (Carries (choice_state self.old.choice.now) self.old.spans self.old.areas
            self.new.spans self.new.areas (λ spans. closed spans (seen ⟦<dyn Device as Device>⟧ board.now).time)) }
    {
        let end = board.time();
        self.scene.close(end)?;
        self.spans.close(end)?;
        self.keep_areas()
    }

    /// Takes the areas.
    pub(crate) fn take_areas(&mut self) -> Areas
        ensures { result ≡ self.old.areas }
    {
        mem::replace(&mut self.areas, Areas::new(self.alloc))
    }

    /// Adds the picture with these areas.
    pub(crate) fn draw(&self, text: &mut Vec<u8>, areas: &Areas) -> Result<(), NoMemory> {
        self.scene.draw(self.alloc, text, self.choice, areas.list())
    }
}
