//! The spans that a summary needs.

ghost use Rattle.std.specs.Prelude.{◌≡◌, ◌++◌, OnOk};
ghost use Rattle.board_changes.specs.Spans.{closed};
ghost use Rattle.board_trace.specs.Snapshots.{snapshot_of};
ghost use Rattle.kernel_world.specs.Seen.{world_seen};
ghost use Rattle.wind_session.specs.BoardPlayerSeen.{seen};
ghost use Rattle.trace_summary.specs.Keeping.{KeepsTimes};
ghost use Rattle.trace_summary.specs.Times.{SpanLists};
ghost use Rattle.trace_session.specs.Watches.{KeepsWatch, emptied, watch_state};
ghost use Rattle.trace_session.specs.Watching.{WatchState, lists_at, no_watch, runner_in as runner_in_lem, watched};

use board_changes::{Spans, TaskView};
use id_table::Ident;
use kernel_world::World;
use std::alloc::Global;
use trace_state::running_task;
use trace_summary::LongestTimes;
use wind_base::NoMemory;
use wind_outside::Device;
use wind_session::Board;

/// The spans of the tasks of a run: those that go on, and the longest times in those that have ended.
#[derive(Drop)]
pub(crate) struct Watch {
    spans: Spans,
    // the same if an interrupt routine leaves the running task running
    uninterrupted: Spans,
    // the task that runs in those, if one does
    runner: Option<Ident>,
    /// The longest times of each task.
    pub(crate) times: LongestTimes,
}

// The task that runs. While an interrupt routine is active, the same task runs as before.
fn runner_in(old: Option<Ident>, world: &World) -> Option<Ident>
    ensures { result ≡ runner_in_lem old (world_seen ⟦<dyn Device as Device>⟧ world.now) }
{
    if world.watch.active() {
        return old;
    }
    running_task(world)
}

impl Watch {
    /// Nothing was looked at.
    pub(crate) fn new(alloc: Global) -> Watch
        ensures { KeepsWatch result no_watch }
    {
        Watch {
            spans: Spans::new(alloc),
            uninterrupted: Spans::new(alloc),
            runner: None,
            times: LongestTimes::new(alloc),
        }
    }

    // Looks at the tasks of a board. The spans that end are left.
    fn observe(&mut self, board: &Board, views: &[TaskView]) -> Result<(), NoMemory>
        requires { views.now ≡ (snapshot_of (seen ⟦<dyn Device as Device>⟧ board.now).world).tasks }
        ensures state { OnOk result (watch_state self.new
            ≡ watched (watch_state self.old) (seen ⟦<dyn Device as Device>⟧ board.now)) }
        ensures times { OnOk result (self.new.times ≡ self.old.times) }
    {
        let (time, world) = (board.time(), board.world());
        self.runner = runner_in(self.runner, world);
        self.spans.observe(time, views, running_task(world))?;
        self.uninterrupted.observe(time, views, self.runner)
    }

    // Adds the spans that have ended to the longest times, and forgets them.
    fn keep_ended(&mut self) -> Result<(), NoMemory>
        ensures state { OnOk result (watch_state self.new ≡ emptied (watch_state self.old)) }
        ensures times { OnOk result ((older : SpanLists) → KeepsTimes self.old.times older
            → KeepsTimes self.new.times (record {
              all = older.all ++ self.old.spans.done;
              uninterrupted = older.uninterrupted ++ self.old.uninterrupted.done;
            })) }
    {
        self.times.add(self.spans.done())?;
        self.times.add_uninterrupted(self.uninterrupted.done())?;
        self.spans.forget_done();
        self.uninterrupted.forget_done();
        Ok(())
    }

    /// Looks at the tasks of a board.
    pub(crate) fn look(&mut self, board: &Board, views: &[TaskView]) -> Result<(), NoMemory>
        requires { views.now ≡ (snapshot_of (seen ⟦<dyn Device as Device>⟧ board.now).world).tasks }
        ensures { OnOk result ((w : WatchState) → KeepsWatch self.old w
            → KeepsWatch self.new (watched w (seen ⟦<dyn Device as Device>⟧ board.now))) }
    {
        self.observe(board, views)?;
        self.keep_ended()?;
        Ok(())
    }

    // All spans end at this time.
    fn end(&mut self, time: u128) -> Result<(), NoMemory>
        ensures spans { OnOk result (self.new.spans ≡ closed self.old.spans time) }
        ensures uninterrupted { OnOk result (self.new.uninterrupted ≡ closed self.old.uninterrupted time) }
        ensures times { OnOk result (self.new.times ≡ self.old.times) }
    {
        self.spans.close(time)?;
        self.uninterrupted.close(time)
    }

    /// The run has ended at this time, and so do all spans.
    pub(crate) fn close(&mut self, time: u128) -> Result<(), NoMemory>
        ensures { OnOk result ((w : WatchState) → KeepsWatch self.old w
            → KeepsTimes self.new.times (lists_at w time)) }
    {
        self.end(time)?;
        self.keep_ended()?;
        Ok(())
    }
}
