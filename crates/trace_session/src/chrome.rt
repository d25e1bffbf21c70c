//! A run, told as a list of objects of the trace-event format.

ghost use Rattle.std.specs.Prelude.{◌≡◌, ◌≢◌, ◌⊎◌, ◌≤◌, ◌+◌, ◌++◌, ℕ, List, [], Option, IfOk, OnErr};
ghost use Rattle.wind_base.specs.Limits.{most_steps};
ghost use Rattle.wind_outside.specs.{Appending.{Appended, AppendedPrefix}, Counts.Rose};
ghost use Rattle.wind_outside.specs.declared.sink.Put.TheVariants as puts;
ghost use Rattle.wind_machine.specs.{State.State, Run.{Answers, after}, Silent.SilentSteps};
ghost use Rattle.wind_session.specs.{Keeping.KeepsFiles, Telling.Told};
ghost use Rattle.wind_session.specs.BoardPlayerSeen.{seen};
ghost use Rattle.wind_session.specs.declared.run.RunEnd.TheVariants as ends;
ghost use Rattle.board_trace.specs.{Snapshots.snapshot_of, Views.snapshot_state};
ghost use Rattle.trace_json.specs.Chrome.{TraceObject};
ghost use Rattle.trace_session.specs.Choice.{choice_state};
ghost use Rattle.trace_session.specs.Counters.{queue_counts};
ghost use Rattle.trace_session.specs.Chrome.{HoldsFirst, HoldsObjects, IsList, TellsFirst, TellsObjects, chart_after, charted, last_object, left_objects, objects_after};
ghost use Rattle.trace_session.specs.Traced.{Alone, IsPutOf};

use crate::charter::Charter;
use crate::choice::Choice;
use crate::part_spans::burst_within;
use crate::traced::TracedRun;
use board_trace::BeforeStep;
use std::alloc::Global;
use trace_state::{last_actor, look_before};
use wind_base::NoMemory;
use wind_outside::{Device, Folder, Put, Sink};
use wind_session::{Board, RunEnd, Teller, tell_run};

// The text is put once it has this many bytes.
const PAGE_BYTES: usize = 65_536;

// Puts the text of objects.
fn put_objects<O: Sink>(text: &mut Vec<u8>, out: &mut O) -> Put
    ensures done { result ≡ puts.Done → Appended (O.bytes out.old) (O.bytes out.new) text.old.items }
    ensures part { AppendedPrefix (O.bytes out.old) (O.bytes out.new) text.old.items }
    ensures text { text.new.items ≡ [] }
    ensures failed { result ≡ puts.Failed → Rose (O.faults out.old) (O.faults out.new) }
    ensures faults { O.faults out.old ≤ O.faults out.new }
{
    let put = out.put(text);
    text.clear();
    put
}

// Puts the text of objects if it is full.
fn put_full<O: Sink>(text: &mut Vec<u8>, out: &mut O) -> Put
    ensures done { result ≡ puts.Done → (first : Option (List ℕ)) (objects : List TraceObject)
        → HoldsObjects first (O.bytes out.old) text.old.items objects
        → HoldsObjects first (O.bytes out.new) text.new.items objects }
    ensures part { result ≡ puts.Failed → (first : Option (List ℕ)) (objects : List TraceObject)
        → HoldsObjects first (O.bytes out.old) text.old.items objects → HoldsFirst first (O.bytes out.new) objects }
    ensures failed { result ≡ puts.Failed → Rose (O.faults out.old) (O.faults out.new) }
    ensures faults { O.faults out.old ≤ O.faults out.new }
{
    if text.len() < PAGE_BYTES {
        return Put::Done;
    }
    put_objects(text, out)
}

// Makes instructions at once, at most `most`. They have no objects. Returns how many it made.
fn burst(board: &mut Board, charter: &mut Charter, most: u64) -> u64
    requires few { (seen ⟦<dyn Device as Device>⟧ board.old).steps + most ≤ most_steps }
    requires before { snapshot_state charter.old.reader.before
        ≡ snapshot_of (seen ⟦<dyn Device as Device>⟧ board.old).world }
    requires counts { charter.old.queues.before.items
        ≡ queue_counts (seen ⟦<dyn Device as Device>⟧ board.old).world }
    ensures made { SilentSteps result (seen ⟦<dyn Device as Device>⟧ board.old)
        (seen ⟦<dyn Device as Device>⟧ board.new) }
    ensures within { result ≤ most }
    ensures objects { (said : Answers) (s : State) (i : ℕ) → seen ⟦<dyn Device as Device>⟧ board.old ≡ after said s i
        → objects_after (choice_state charter.old.choice.now) said s (i + result)
        ≡ objects_after (choice_state charter.old.choice.now) said s i }
    ensures goes_on { (said : Answers) (s : State) (i : ℕ) → seen ⟦<dyn Device as Device>⟧ board.old ≡ after said s i
        → chart_after (choice_state charter.old.choice.now) said s (i + result)
        ≡ chart_after (choice_state charter.old.choice.now) said s i }
    ensures choice { charter.new.choice ≡ charter.old.choice }
    ensures chart { charted charter.new.spans charter.new.level charter.new.flows
        ≡ charted charter.old.spans charter.old.level charter.old.flows }
    ensures text { charter.new.text.items ≡ charter.old.text.items }
    ensures before { snapshot_state charter.new.reader.before
        ≡ snapshot_of (seen ⟦<dyn Device as Device>⟧ board.new).world }
    ensures counts { charter.new.queues.before.items
        ≡ queue_counts (seen ⟦<dyn Device as Device>⟧ board.new).world }
{
    board.facts();
    let who = last_actor(board.world());
    let count = burst_within(board, charter.choice, most);
    // somebody made a step before, or no instruction is made at once
    let Some(who) = who else {
        return count;
    };
    if count == 0 {
        return count;
    }
    charter.reader.skip(board, &who);
    count
}

impl<'a> Teller for Charter<'a> {
    ghost use Rattle.std.specs.Prelude.{◌≡◌};
    ghost use Rattle.board_trace.specs.{Before.before_step, Views.snapshot_state};
    ghost use Rattle.trace_session.specs.Choice.{choice_state};
    ghost use Rattle.trace_session.specs.Chrome.{ChartsPart, ChartsSteps, IsReadyToChart, charted};

    type Before = BeforeStep;

    type Error = NoMemory;

    type Scope = &'a Choice;

    ghost scope = { λ t. t.choice };

    ghost reads = { λ before s. before ≡ before_step s };

    ghost tells = { λ t first now. ChartsSteps (choice_state t.choice.now) (charted t.spans t.level t.flows) first.bytes now.bytes t.text.items };

    ghost lost = { λ scope first now. ChartsPart (choice_state scope.now) first.bytes now.bytes };

    ghost part = { λ scope first now. ChartsPart (choice_state scope.now) first.bytes now.bytes };

    ghost ready = { λ t s. IsReadyToChart (snapshot_state t.reader.before) t.queues.before.items s };

    fn part_law(&self) {}

    fn burst(&mut self, board: &mut Board, most: u64) -> Result<u64, NoMemory> {
        Ok(burst(board, self, most))
    }

    fn look_before(&self, board: &Board) -> Result<BeforeStep, NoMemory> {
        look_before(board)
    }

    fn tell<O: Sink>(
        &mut self,
        board: &Board,
        before: &BeforeStep,
        out: &mut O,
    ) -> Result<Put, NoMemory> {
        self.add_step(board, before)?;
        Ok(put_full(&mut self.text, out))
    }
}

// Tells how a run ended, and puts the objects that were not put yet.
fn tell_end<O: Sink>(
    board: &Board,
    out: &mut O,
    end: RunEnd,
    charter: &mut Charter,
) -> Result<RunEnd, NoMemory>
    ensures told { IfOk result (λ e. (first : Option (List ℕ)) (objects : List TraceObject)
        → HoldsObjects first (O.bytes out.old) charter.old.text.items objects
        → (text : List ℕ) × IsList (objects ++ left_objects (choice_state charter.old.choice.now)
        (charted charter.old.spans charter.old.level charter.old.flows)
        (seen ⟦<dyn Device as Device>⟧ board.now).time)
        (last_object end (seen ⟦<dyn Device as Device>⟧ board.now)) text
        × IsPutOf text e end first (O.bytes out.new)) }
    ensures given_up { OnErr result (O.bytes out.new ≡ O.bytes out.old) }
    ensures same { IfOk result (λ e. (e ≡ end) ⊎ (e ≡ ends.WriteFault)) }
    ensures fault { IfOk result (λ e. end ≢ ends.WriteFault → e ≡ ends.WriteFault
        → Rose (O.faults out.old) (O.faults out.new)) }
    ensures faults { O.faults out.old ≤ O.faults out.new }
{
    charter.add_end(board, end)?;
    match put_objects(&mut charter.text, out) {
        Put::Done => Ok(end),
        Put::Failed => Ok(RunEnd::WriteFault),
    }
}

/// Makes steps, at most `limit`, and puts the spans that end in them and an instant for each thing
/// that happened, as far as these are chosen, and then how the run ended. The modules that the steps
/// need are fetched from the folder.
///
/// # Errors
///
/// `NoMemory` if memory runs out for the objects. Then the run is given up.
pub(crate) fn tell_chrome<F: Folder, O: Sink>(
    alloc: Global,
    choice: &Choice,
    board: &mut Board,
    folder: &mut F,
    modules: &str,
    out: &mut O,
    limit: u64,
) -> Result<TracedRun, NoMemory>
    requires fresh { (seen ⟦<dyn Device as Device>⟧ board.old).steps ≡ 0 }
    requires bound { limit ≤ most_steps }
    ensures told { IfOk result (λ t. Told
        (Alone t.product (TellsObjects (choice_state choice.now) t.end (seen ⟦<dyn Device as Device>⟧ board.old)
        (O.bytes out.old) (O.bytes out.new)))
        (record { files = F.files folder.old; name = modules.now }) (seen ⟦<dyn Device as Device>⟧ board.old) limit
        (seen ⟦<dyn Device as Device>⟧ board.new) (F.requests folder.old) (F.requests folder.new)) }
    ensures given_up { OnErr result (Told
        (TellsFirst (choice_state choice.now) (seen ⟦<dyn Device as Device>⟧ board.old)
        (O.bytes out.old) (O.bytes out.new))
        (record { files = F.files folder.old; name = modules.now }) (seen ⟦<dyn Device as Device>⟧ board.old) limit
        (seen ⟦<dyn Device as Device>⟧ board.new) (F.requests folder.old) (F.requests folder.new)) }
    ensures read_fault { IfOk result (λ t. t.end ≡ ends.ReadFault → Rose (F.faults folder.old) (F.faults folder.new)) }
    ensures fault { IfOk result (λ t. t.end ≡ ends.WriteFault → Rose (O.faults out.old) (O.faults out.new)) }
    ensures keeps { KeepsFiles ⟦<F as Folder>⟧ ⟦<O as Sink>⟧ folder.old out.old folder.new out.new }
{
    let mut charter = Charter::new(alloc, choice, board)?;
    let end = tell_run(alloc, board, folder, modules, out, limit, &mut charter)?;
    match end {
        RunEnd::WriteFault => Ok(TracedRun::text(end)),
        _ => {
            let last = tell_end(board, out, end, &mut charter)?;
            Ok(TracedRun::text(last))
        }
    }
}
