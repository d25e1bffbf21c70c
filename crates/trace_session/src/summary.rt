//! A run, told as its figures.

ghost use Rattle.std.specs.Prelude.{◌≡◌, ◌≢◌, ◌≤◌, ◌+◌, ℕ, List, IfOk, OnErr, OnOk};
ghost use Rattle.wind_base.specs.Limits.{most_steps};
ghost use Rattle.wind_outside.specs.Counts.{Rose};
ghost use Rattle.wind_machine.specs.{State.State, Run.{Answers, after}, Silent.SilentSteps};
ghost use Rattle.wind_session.specs.{Keeping.KeepsFiles, Telling.Told};
ghost use Rattle.wind_session.specs.BoardPlayerSeen.{seen};
ghost use Rattle.wind_session.specs.declared.run.RunEnd.TheVariants as ends;
ghost use Rattle.board_changes.specs.declared.view.TaskView.{TaskView};
ghost use Rattle.board_trace.specs.{Runs.lines_of, Snapshots.snapshot_of, Views.snapshot_state};
ghost use Rattle.trace_summary.specs.Summaries.{summary_state, tally_of, tally_state};
ghost use Rattle.trace_session.specs.Summing.{IsSummedUp, TellsSummary, TellsTable};
ghost use Rattle.trace_session.specs.Traced.{Alone, TellsNothing};

use crate::counter::Counter;
use crate::laws::silent_lines_law;
use crate::put::put_text;
use crate::traced::{Product, TracedRun};
use board_trace::BeforeStep;
use std::alloc::Global;
use trace_state::{last_actor, look_before};
use trace_summary::{Summary, summary_text, table_text};
use wind_base::NoMemory;
use wind_machine::silent_law;
use wind_outside::{Device, Folder, Put, Sink};
use wind_session::{Board, RunEnd, Teller, tell_run};

// Makes instructions at once, at most `most`, and counts them. Returns how many it made.
fn burst(board: &mut Board, counter: &mut Counter, most: u64) -> Result<u64, NoMemory>
    requires few { (seen ⟦<dyn Device as Device>⟧ board.old).steps + most ≤ most_steps }
    requires before { snapshot_state counter.old.reader.before
        ≡ snapshot_of (seen ⟦<dyn Device as Device>⟧ board.old).world }
    ensures made { IfOk result (λ k. SilentSteps k (seen ⟦<dyn Device as Device>⟧ board.old)
        (seen ⟦<dyn Device as Device>⟧ board.new)) }
    ensures within { IfOk result (λ k. k ≤ most) }
    ensures given_up { OnErr result ((k : ℕ) × (k ≤ most)
        × SilentSteps k (seen ⟦<dyn Device as Device>⟧ board.old) (seen ⟦<dyn Device as Device>⟧ board.new)) }
    ensures tally { IfOk result (λ k. (views : List TaskView) (said : Answers) (s : State) (i : ℕ)
        → seen ⟦<dyn Device as Device>⟧ board.old ≡ after said s i
        → tally_state counter.old.tally ≡ tally_of views (lines_of said s i)
        → tally_state counter.new.tally ≡ tally_of views (lines_of said s (i + k))) }
    ensures watch { OnOk result (counter.new.watch ≡ counter.old.watch) }
    ensures before { OnOk result (snapshot_state counter.new.reader.before
        ≡ snapshot_of (seen ⟦<dyn Device as Device>⟧ board.new).world) }
{
    silent_lines_law();
    board.facts();
    let who = last_actor(board.world());
    let time = board.time();
    let count = board.burst(most);
    // somebody made a step before, or no instruction is made at once
    let Some(who) = who else {
        return Ok(count);
    };
    if count == 0 {
        return Ok(0);
    }
    counter.add_instructions(board, &who, count, time)?;
    Ok(count)
}

impl Teller for Counter {
    ghost use Rattle.std.specs.Prelude.{◌≡◌};
    ghost use Rattle.board_trace.specs.{Before.before_step, Snapshots.snapshot_of, Views.snapshot_state};
    ghost use Rattle.trace_summary.specs.Summaries.{tally_state};
    ghost use Rattle.trace_session.specs.Summing.{CountsLines};

    type Before = BeforeStep;

    type Error = NoMemory;

    type Scope = ();

    ghost scope = { λ c. tt };

    ghost reads = { λ before s. before ≡ before_step s };

    ghost tells = { λ c. CountsLines (tally_state c.tally) c.watch };

    ghost lost = { λ scope first now said s k. ⊥ };

    ghost part = { λ scope first now said s k. Unit {0} };

    ghost ready = { λ c s. snapshot_state c.reader.before ≡ snapshot_of s.world };

    fn part_law(&self) {}

    fn burst(&mut self, board: &mut Board, most: u64) -> Result<u64, NoMemory> {
        silent_law();
        burst(board, self, most)
    }

    fn look_before(&self, board: &Board) -> Result<BeforeStep, NoMemory> {
        look_before(board)
    }

    fn tell<O: Sink>(
        &mut self,
        board: &Board,
        before: &BeforeStep,
        _: &mut O,
    ) -> Result<Put, NoMemory> {
        self.add_step(board, before)?;
        Ok(Put::Done)
    }
}

// A run and its figures.
#[derive(Drop)]
struct SummedRun {
    // how it ended
    end: RunEnd,
    // its figures
    summary: Summary,
}

// Makes steps, at most `limit`, and counts what happens in them. The modules that the steps need
// are fetched from the folder.
fn sum_up<F: Folder, O: Sink>(
    alloc: Global,
    board: &mut Board,
    folder: &mut F,
    modules: &str,
    out: &mut O,
    limit: u64,
) -> Result<SummedRun, NoMemory>
    requires fresh { (seen ⟦<dyn Device as Device>⟧ board.old).steps ≡ 0 }
    requires bound { limit ≤ most_steps }
    ensures told { IfOk result (λ r. Told
        (IsSummedUp r.end (summary_state r.summary) (seen ⟦<dyn Device as Device>⟧ board.old))
        (record { files = F.files folder.old; name = modules.now }) (seen ⟦<dyn Device as Device>⟧ board.old) limit
        (seen ⟦<dyn Device as Device>⟧ board.new) (F.requests folder.old) (F.requests folder.new)) }
    ensures bytes { OnOk result (O.bytes out.new ≡ O.bytes out.old) }
    ensures given_up { OnErr result (Told
        TellsNothing
        (record { files = F.files folder.old; name = modules.now }) (seen ⟦<dyn Device as Device>⟧ board.old) limit
        (seen ⟦<dyn Device as Device>⟧ board.new) (F.requests folder.old) (F.requests folder.new)) }
    ensures read_fault { IfOk result (λ r. r.end ≡ ends.ReadFault → Rose (F.faults folder.old) (F.faults folder.new)) }
    ensures put { IfOk result (λ r. r.end ≢ ends.WriteFault) }
    ensures keeps { KeepsFiles ⟦<F as Folder>⟧ ⟦<O as Sink>⟧ folder.old out.old folder.new out.new }
{
    let mut counter = Counter::new(alloc, board)?;
    let end = tell_run(alloc, board, folder, modules, out, limit, &mut counter)?;
    let time = board.time();
    counter.watch.close(time)?;
    let times = &counter.watch.times;
    let summary = counter.tally.finish(alloc, times, time, board.steps())?;
    Ok(SummedRun { end, summary })
}

/// Makes steps, at most `limit`, and puts their figures as JSON. The modules that the steps need are
/// fetched from the folder.
///
/// # Errors
///
/// `NoMemory` if memory runs out for the figures or their text. Then nothing is put.
pub(crate) fn tell_summary<F: Folder, O: Sink>(
    alloc: Global,
    board: &mut Board,
    folder: &mut F,
    modules: &str,
    out: &mut O,
    limit: u64,
) -> Result<TracedRun, NoMemory>
    requires fresh { (seen ⟦<dyn Device as Device>⟧ board.old).steps ≡ 0 }
    requires bound { limit ≤ most_steps }
    ensures told { IfOk result (λ t. Told
        (Alone t.product (TellsSummary t.end (seen ⟦<dyn Device as Device>⟧ board.old)
        (O.bytes out.old) (O.bytes out.new)))
        (record { files = F.files folder.old; name = modules.now }) (seen ⟦<dyn Device as Device>⟧ board.old) limit
        (seen ⟦<dyn Device as Device>⟧ board.new) (F.requests folder.old) (F.requests folder.new)) }
    ensures given_up { OnErr result (Told
        TellsNothing
        (record { files = F.files folder.old; name = modules.now }) (seen ⟦<dyn Device as Device>⟧ board.old) limit
        (seen ⟦<dyn Device as Device>⟧ board.new) (F.requests folder.old) (F.requests folder.new)) }
    ensures read_fault { IfOk result (λ t. t.end ≡ ends.ReadFault → Rose (F.faults folder.old) (F.faults folder.new)) }
    ensures fault { IfOk result (λ t. t.end ≡ ends.WriteFault → Rose (O.faults out.old) (O.faults out.new)) }
    ensures keeps { KeepsFiles ⟦<F as Folder>⟧ ⟦<O as Sink>⟧ folder.old out.old folder.new out.new }
{
    let run = sum_up(alloc, board, folder, modules, out, limit)?;
    let text = summary_text(alloc, &run.summary)?;
    Ok(TracedRun::text(put_text(out, &text, run.end)))
}

/// Makes steps, at most `limit`, and puts their figures as a table. The modules that the steps need
/// are fetched from the folder.
///
/// # Errors
///
/// `NoMemory` if memory runs out for the figures or their text. Then nothing is put.
pub(crate) fn tell_table<F: Folder, O: Sink>(
    alloc: Global,
    board: &mut Board,
    folder: &mut F,
    modules: &str,
    out: &mut O,
    limit: u64,
) -> Result<TracedRun, NoMemory>
    requires fresh { (seen ⟦<dyn Device as Device>⟧ board.old).steps ≡ 0 }
    requires bound { limit ≤ most_steps }
    ensures told { IfOk result (λ t. Told
        (TellsTable t.product t.end (seen ⟦<dyn Device as Device>⟧ board.old))
        (record { files = F.files folder.old; name = modules.now }) (seen ⟦<dyn Device as Device>⟧ board.old) limit
        (seen ⟦<dyn Device as Device>⟧ board.new) (F.requests folder.old) (F.requests folder.new)) }
    ensures given_up { OnErr result (Told
        TellsNothing
        (record { files = F.files folder.old; name = modules.now }) (seen ⟦<dyn Device as Device>⟧ board.old) limit
        (seen ⟦<dyn Device as Device>⟧ board.new) (F.requests folder.old) (F.requests folder.new)) }
    ensures read_fault { IfOk result (λ t. t.end ≡ ends.ReadFault → Rose (F.faults folder.old) (F.faults folder.new)) }
    ensures fault { IfOk result (λ t. t.end ≡ ends.WriteFault → Rose (O.faults out.old) (O.faults out.new)) }
    ensures keeps { KeepsFiles ⟦<F as Folder>⟧ ⟦<O as Sink>⟧ folder.old out.old folder.new out.new }
{
    let SummedRun { end, summary } = sum_up(alloc, board, folder, modules, out, limit)?;
    let text = table_text(alloc, &summary)?;
    Ok(TracedRun {
        end: put_text(out, &text, end),
        product: Product::Table(summary),
    })
}
