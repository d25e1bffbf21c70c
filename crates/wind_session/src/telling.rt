//! The loop of a run, and what is done with the board at each step.

ghost use Rattle.std.specs.Prelude.{◌≡◌, ◌≤◌, ◌<◌, ◌+◌, ℕ, IfOk, OnErr, OnOk};
ghost use Rattle.wind_base.specs.Limits.{most_steps};
ghost use Rattle.wind_outside.specs.Counts.{Rose};
ghost use Rattle.wind_outside.specs.declared.sink.Put.TheVariants as puts;
ghost use Rattle.generated_session.specs.Puts.{SinkLog, sink_log};
ghost use Rattle.board_player.specs.{Seen.{last_reply, seen}, WindMachineState.State, WindMachineRun.{Answers, after}};
ghost use Rattle.board_player.specs.{WindMachineMachine.IsOver, WindMachineExtending.IsRoom, WindMachineSilent.SilentSteps};
ghost use Rattle.wind_session.specs.{Keeping.KeepsFiles, Outside.{Outside, outside, sink_of}};
ghost use Rattle.wind_session.specs.Telling.{GoesOn, IsTold, IsToldInPart, StepFrom, Told, Underway};
ghost use Rattle.wind_session.specs.declared.run.RunEnd.TheVariants as ends;

use crate::modules::step;
use crate::run::RunEnd;
use board_player::{Board, extend_law, silent_law};
use std::alloc::Global;
use wind_outside::{Device, Folder, Put, Sink};

/// Tells of the steps of a run.
///
/// A contract can see what it has told, by what the sink logged before the run and logs now. If it
/// fails, what was told stays told.
pub trait Teller {
    /// What it reads of a board before a step.
    type Before: Drop;

    /// Why it gives up.
    type Error: Drop;

    /// What of a run it tells.
    type Scope;

    /// The scope that it has; this stays the same.
    ghost scope: { Self → Self.Scope };

    /// This was read of this state.
    ghost reads: { Self.Before → State → Type 0 };

    /// The first steps of a run were told.
    ghost tells: { Self → SinkLog → SinkLog → Answers → State → ℕ → Type 0 };

    /// They were told, but the last put failed.
    ghost lost: { Self.Scope → SinkLog → SinkLog → Answers → State → ℕ → Type 0 };

    /// What is left of it in the sink if the run is given up.
    ghost part: { Self.Scope → SinkLog → SinkLog → Answers → State → ℕ → Type 0 };

    /// The step that follows this state can be told.
    ghost ready: { Self → State → Type 0 };

    /// What was told leaves its part, whatever the folder answers later.
    fn part_law(&self)
        ensures { (first now : SinkLog) (said next : Answers) (s : State) (i : ℕ)
            → ((j : ℕ) → j < i → said j ≡ next j) → tells self.now first now said s i → part (scope self.now) first now next s i };

    /// Makes instructions at once, at most `most`, and tells of them. Returns how many it made, which
    /// may be 0.
    fn burst(&mut self, board: &mut Board, most: u64) -> Result<u64, Self::Error>
        requires few { (seen ⟦<dyn Device as Device>⟧ board.old).steps + most ≤ most_steps }
        requires told { ready self.old (seen ⟦<dyn Device as Device>⟧ board.old) }
        ensures made { IfOk result (λ k. SilentSteps k (seen ⟦<dyn Device as Device>⟧ board.old)
            (seen ⟦<dyn Device as Device>⟧ board.new)) }
        ensures within { IfOk result (λ k. k ≤ most) }
        ensures given_up { OnErr result ((k : ℕ) × (k ≤ most)
            × SilentSteps k (seen ⟦<dyn Device as Device>⟧ board.old) (seen ⟦<dyn Device as Device>⟧ board.new)) }
        ensures tells { IfOk result (λ k. (first now : SinkLog) (said : Answers) (s : State) (i : ℕ)
            → seen ⟦<dyn Device as Device>⟧ board.old ≡ after said s i
            → tells self.old first now said s i → tells self.new first now said s (i + k)) }
        ensures scope { OnOk result (scope self.new ≡ scope self.old) }
        ensures ready { OnOk result (ready self.new (seen ⟦<dyn Device as Device>⟧ board.new)) };

    /// Reads what it needs of a board before the next step.
    fn look_before(&self, board: &Board) -> Result<Self::Before, Self::Error>
        requires { (seen ⟦<dyn Device as Device>⟧ board.now).steps < most_steps }
        ensures { IfOk result (λ before. reads before (seen ⟦<dyn Device as Device>⟧ board.now)) };

    /// A step was made: tells of it.
    fn tell<O: Sink>(
        &mut self,
        board: &Board,
        before: &Self::Before,
        out: &mut O,
    ) -> Result<Put, Self::Error>
        requires few { (seen ⟦<dyn Device as Device>⟧ board.now).steps ≤ most_steps }
        requires told { StepFrom (reads before.now) (ready self.old) (seen ⟦<dyn Device as Device>⟧ board.now) }
        ensures tells { IfOk result (λ put. put ≡ puts.Done
            → (first : SinkLog) (said next : Answers) (s u : State) (i : ℕ)
            → reads before.now u → ready self.old u
            → GoesOn said next s u (seen ⟦<dyn Device as Device>⟧ board.now) (last_reply board.now) i
            → tells self.old first (sink_log ⟦<O as Sink>⟧ out.old) said s i
            → tells self.new first (sink_log ⟦<O as Sink>⟧ out.new) next s (i + 1)) }
        ensures lost { IfOk result (λ put. put ≡ puts.Failed
            → (first : SinkLog) (said next : Answers) (s u : State) (i : ℕ)
            → reads before.now u → ready self.old u
            → GoesOn said next s u (seen ⟦<dyn Device as Device>⟧ board.now) (last_reply board.now) i
            → tells self.old first (sink_log ⟦<O as Sink>⟧ out.old) said s i
            → lost (scope self.old) first (sink_log ⟦<O as Sink>⟧ out.new) next s (i + 1)) }
        ensures given_up { OnErr result (sink_log ⟦<O as Sink>⟧ out.new ≡ sink_log ⟦<O as Sink>⟧ out.old) }
        ensures scope { OnOk result (scope self.new ≡ scope self.old) }
        ensures ready { OnOk result (ready self.new (seen ⟦<dyn Device as Device>⟧ board.now)) }
        ensures fault { IfOk result (λ put. put ≡ puts.Failed → Rose (O.faults out.old) (O.faults out.new)) }
        ensures faults { O.faults out.old ≤ O.faults out.new };
}

/// Makes at most `most` further steps, and tells of each. The modules that the steps need are
/// fetched from the folder. The contract speaks of every run of which the first steps led to this
/// board and were told.
///
/// # Errors
///
/// That of the teller. Then the run is given up.
pub fn tell_steps<F: Folder, O: Sink, T: Teller>(
    alloc: Global,
    board: &mut Board,
    folder: &mut F,
    modules: &str,
    out: &mut O,
    most: u64,
    teller: &mut T,
) -> Result<RunEnd, T::Error>
    requires bound { (seen ⟦<dyn Device as Device>⟧ board.old).steps + most ≤ most_steps }
    requires ready { T.ready teller.old (seen ⟦<dyn Device as Device>⟧ board.old) }
    ensures told { IfOk result (λ end. (said : Answers) (start : State) (n i : ℕ) (first : Outside) → i + most ≡ n
        → Underway (T.tells teller.old) (record { files = F.files folder.old; name = modules.now }) said start n i
        (seen ⟦<dyn Device as Device>⟧ board.old) first
        (outside (F.requests folder.old) (O.bytes out.old) (O.pieces out.old))
        → Told (IsTold (T.tells teller.new (sink_of first) (sink_log ⟦<O as Sink>⟧ out.new))
        (T.lost (T.scope teller.old) (sink_of first) (sink_log ⟦<O as Sink>⟧ out.new)) end start)
        (record { files = F.files folder.old; name = modules.now }) start n
        (seen ⟦<dyn Device as Device>⟧ board.new) first.requests (F.requests folder.new)) }
    ensures given_up { OnErr result ((said : Answers) (start : State) (n i : ℕ) (first : Outside) → i + most ≡ n
        → Underway (T.tells teller.old) (record { files = F.files folder.old; name = modules.now }) said start n i
        (seen ⟦<dyn Device as Device>⟧ board.old) first
        (outside (F.requests folder.old) (O.bytes out.old) (O.pieces out.old))
        → Told (IsToldInPart (T.part (T.scope teller.old) (sink_of first) (sink_log ⟦<O as Sink>⟧ out.new)) start)
        (record { files = F.files folder.old; name = modules.now }) start n
        (seen ⟦<dyn Device as Device>⟧ board.new) first.requests (F.requests folder.new)) }
    ensures scope { OnOk result (T.scope teller.new ≡ T.scope teller.old) }
    ensures ready { OnOk result (T.ready teller.new (seen ⟦<dyn Device as Device>⟧ board.new)) }
    ensures quiet { IfOk result (λ end. end ≡ ends.Quiet → IsOver (seen ⟦<dyn Device as Device>⟧ board.new)) }
    ensures steps { (seen ⟦<dyn Device as Device>⟧ board.new).steps
        ≤ (seen ⟦<dyn Device as Device>⟧ board.old).steps + most }
    ensures room { (time line : ℕ) → IsRoom time line (seen ⟦<dyn Device as Device>⟧ board.old)
        → IsRoom time line (seen ⟦<dyn Device as Device>⟧ board.new) }
    ensures read_fault { IfOk result (λ end. end ≡ ends.ReadFault → Rose (F.faults folder.old) (F.faults folder.new)) }
    ensures fault { IfOk result (λ end. end ≡ ends.WriteFault → Rose (O.faults out.old) (O.faults out.new)) }
    ensures keeps { KeepsFiles ⟦<F as Folder>⟧ ⟦<O as Sink>⟧ folder.old out.old folder.new out.new }
{
    silent_law();
    extend_law();
    let mut made = 0;
    while made < most {
        teller.part_law();
        let count = teller.burst(board, most - made)?;
        made += count;
        if made == most {
            return Ok(RunEnd::Limit);
        }
        let before = teller.look_before(board)?;
        match step(alloc, board, folder, modules) {
            Ok(()) => made += 1,
            Err(end) => return Ok(end),
        }
        let put = teller.tell(board, &before, out)?;
        match put {
            Put::Done => {}
            Put::Failed => return Ok(RunEnd::WriteFault),
        }
    }
    Ok(RunEnd::Limit)
}

/// Makes steps, at most `limit`, and tells of each. The modules that the steps need are fetched from
/// the folder.
///
/// # Errors
///
/// That of the teller. Then the run is given up.
pub fn tell_run<F: Folder, O: Sink, T: Teller>(
    alloc: Global,
    board: &mut Board,
    folder: &mut F,
    modules: &str,
    out: &mut O,
    limit: u64,
    teller: &mut T,
) -> Result<RunEnd, T::Error>
    requires fresh { (seen ⟦<dyn Device as Device>⟧ board.old).steps ≡ 0 }
    requires bound { limit ≤ most_steps }
    requires tells { (said : Answers) → T.tells teller.old (sink_log ⟦<O as Sink>⟧ out.old)
        (sink_log ⟦<O as Sink>⟧ out.old) said (seen ⟦<dyn Device as Device>⟧ board.old) 0 }
    requires ready { T.ready teller.old (seen ⟦<dyn Device as Device>⟧ board.old) }
    ensures told { IfOk result (λ end. Told
        (IsTold (T.tells teller.new (sink_log ⟦<O as Sink>⟧ out.old) (sink_log ⟦<O as Sink>⟧ out.new))
        (T.lost (T.scope teller.old) (sink_log ⟦<O as Sink>⟧ out.old) (sink_log ⟦<O as Sink>⟧ out.new))
        end (seen ⟦<dyn Device as Device>⟧ board.old))
        (record { files = F.files folder.old; name = modules.now }) (seen ⟦<dyn Device as Device>⟧ board.old) limit
        (seen ⟦<dyn Device as Device>⟧ board.new) (F.requests folder.old) (F.requests folder.new)) }
    ensures given_up { OnErr result (Told
        (IsToldInPart (T.part (T.scope teller.old) (sink_log ⟦<O as Sink>⟧ out.old) (sink_log ⟦<O as Sink>⟧ out.new))
        (seen ⟦<dyn Device as Device>⟧ board.old))
        (record { files = F.files folder.old; name = modules.now }) (seen ⟦<dyn Device as Device>⟧ board.old) limit
        (seen ⟦<dyn Device as Device>⟧ board.new) (F.requests folder.old) (F.requests folder.new)) }
    ensures scope { OnOk result (T.scope teller.new ≡ T.scope teller.old) }
    ensures ready { OnOk result (T.ready teller.new (seen ⟦<dyn Device as Device>⟧ board.new)) }
    ensures read_fault { IfOk result (λ end. end ≡ ends.ReadFault → Rose (F.faults folder.old) (F.faults folder.new)) }
    ensures fault { IfOk result (λ end. end ≡ ends.WriteFault → Rose (O.faults out.old) (O.faults out.new)) }
    ensures keeps { KeepsFiles ⟦<F as Folder>⟧ ⟦<O as Sink>⟧ folder.old out.old folder.new out.new }
{
    tell_steps(alloc, board, folder, modules, out, limit, teller)
}
