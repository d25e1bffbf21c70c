//! What happens in each step of a board, from snapshots before and after it.

ghost use Rattle.std.specs.Prelude.{◌≡◌, OnOk, IfOk};
ghost use Rattle.wind_machine.specs.{State.State, Good.Good};
ghost use Rattle.wind_session.specs.BoardPlayerBursts.{MovesOnly};
ghost use Rattle.wind_session.specs.BoardPlayerSeen.{last_reply, seen};
ghost use Rattle.board_trace.specs.Snapshots.{snapshot_of};
ghost use Rattle.board_trace.specs.Views.{snapshot_state};
ghost use Rattle.trace_session.specs.Steps.{happenings_read};

use board_changes::Change;
use board_trace::{BeforeStep, Happening, Snapshot, StepViews, add_happenings};
use kernel_world::Actor;
use std::alloc::Global;
use std::mem;
use trace_state::{empty_snapshot, look_after, retake_task, take_snapshot};
use wind_base::NoMemory;
use wind_outside::Device;
use wind_session::Board;

/// Reads what happens in each step of a board.
#[derive(Drop)]
pub(crate) struct StepReader {
    alloc: Global,
    /// A snapshot of the board before the next step.
    pub(crate) before: Snapshot,
    /// A snapshot of the board after the last step that was read.
    pub(crate) after: Snapshot,
    /// What happened in that step.
    pub(crate) list: Vec<Happening>,
    changes: Vec<Change>,
}

impl StepReader {
    /// A reader of a board before its first step.
    pub(crate) fn new(alloc: Global, board: &Board) -> Result<StepReader, NoMemory>
        ensures { IfOk result (λ r. snapshot_state r.before
            ≡ snapshot_of (seen ⟦<dyn Device as Device>⟧ board.now).world) }
    {
        let mut reader = StepReader {
            alloc,
            before: empty_snapshot(alloc)?,
            after: empty_snapshot(alloc)?,
            list: Vec::new(alloc),
            changes: Vec::new(alloc),
        };
        reader.restart(board)?;
        Ok(reader)
    }

    /// Begins again: the next step is made from this board.
    pub(crate) fn restart(&mut self, board: &Board) -> Result<(), NoMemory>
        ensures { OnOk result (snapshot_state self.new.before
            ≡ snapshot_of (seen ⟦<dyn Device as Device>⟧ board.now).world) }
    {
        take_snapshot(&mut self.before, board.world())
    }

    /// Instructions of a task or routine were made at once. Of what a snapshot shows they changed at
    /// most the task's registers, so its view alone is taken again.
    pub(crate) fn skip(&mut self, board: &Board, who: &Actor)
        ensures { (s : State) → Good s
            → MovesOnly who.now s.world (seen ⟦<dyn Device as Device>⟧ board.now).world
            → snapshot_state self.old.before ≡ snapshot_of s.world
            → snapshot_state self.new.before ≡ snapshot_of (seen ⟦<dyn Device as Device>⟧ board.now).world }
    {
        if let Actor::Task(id) = who {
            retake_task(&mut self.before, board.world(), *id);
        }
    }

    /// A step was made: reads what happened in it.
    pub(crate) fn read(&mut self, board: &Board, before_step: &BeforeStep) -> Result<(), NoMemory>
        ensures before { OnOk result (self.new.before ≡ self.old.before) }
        ensures after { OnOk result (snapshot_state self.new.after
            ≡ snapshot_of (seen ⟦<dyn Device as Device>⟧ board.now).world) }
        ensures list { OnOk result (self.new.list.items ≡ happenings_read before_step.now
            (snapshot_state self.old.before) (last_reply board.now) (seen ⟦<dyn Device as Device>⟧ board.now)) }
    {
        take_snapshot(&mut self.after, board.world())?;
        self.list.clear();
        let after_step = look_after(before_step, board);
        let views = StepViews {
            before_step,
            before: &self.before,
            after: &self.after,
            after_step: &after_step,
            written: board.output(),
        };
        add_happenings(self.alloc, &mut self.list, &mut self.changes, &views)
    }

    /// Goes on to the next step.
    pub(crate) fn go_on(&mut self)
        ensures { self.new.before ≡ self.old.after }
    {
        mem::swap(&mut self.before, &mut self.after);
    }
}
