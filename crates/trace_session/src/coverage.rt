//! A run, told as the words of modules that it executed.

ghost use Rattle.std.specs.Prelude.{◌≡◌, ◌≤◌, ℕ, List, Option, IfOk, OnErr};
ghost use Rattle.wind_base.specs.Limits.{most_steps};
ghost use Rattle.wind_outside.specs.Counts.{Rose};
ghost use Rattle.wind_outside.specs.declared.sink.Put.TheVariants as puts;
ghost use Rattle.wind_machine.specs.{State.State, Run.Answers};
ghost use Rattle.wind_session.specs.{Keeping.KeepsFiles, Telling.Told};
ghost use Rattle.wind_session.specs.BoardPlayerSeen.{seen};
ghost use Rattle.wind_session.specs.declared.run.RunEnd.TheVariants as ends;
ghost use Rattle.trace_session.specs.Covering.{CoversPart, CoversSteps, TellsCoverage, TellsCoveragePart};
ghost use Rattle.trace_session.specs.Traced.{Alone};

use crate::put::put_text;
use crate::traced::TracedRun;
use std::alloc::Global;
use trace_coverage::{Coverage, executed_next};
use wind_base::NoMemory;
use wind_machine::silent_law;
use wind_outside::{Device, Folder, Put, Sink};
use wind_session::{Board, RunEnd, Teller, tell_run};

// The text of unloaded modules is put once it has this many bytes.
const TEXT_BYTES: usize = 65_536;

// Puts the text of unloaded modules, if there is much of it.
fn put_gone<O: Sink>(coverage: &mut Coverage, out: &mut O) -> Put
    ensures done { result ≡ puts.Done → (first : Option (List ℕ)) (said : Answers) (s : State) (k : ℕ)
        → CoversSteps coverage.old first (O.bytes out.old) said s k
        → CoversSteps coverage.new first (O.bytes out.new) said s k }
    ensures part { result ≡ puts.Failed → (first : Option (List ℕ)) (said : Answers) (s : State) (k : ℕ)
        → CoversSteps coverage.old first (O.bytes out.old) said s k → CoversPart first (O.bytes out.new) said s k }
    ensures failed { result ≡ puts.Failed → Rose (O.faults out.old) (O.faults out.new) }
    ensures faults { O.faults out.old ≤ O.faults out.new }
{
    if coverage.text().len() < TEXT_BYTES {
        return Put::Done;
    }
    let put = out.put(coverage.text());
    coverage.clear_text();
    put
}

// Keeps the coverage of a run, and puts that of the modules that were unloaded.
#[derive(Drop)]
struct Coverer {
    coverage: Coverage,
}

impl Teller for Coverer {
    ghost use Rattle.std.specs.Prelude.{◌≡◌};
    ghost use Rattle.trace_coverage.specs.Executed.{executed_at};
    ghost use Rattle.trace_session.specs.Covering.{CoversPart, CoversSteps};

    type Before = Option<u32>;

    type Error = NoMemory;

    type Scope = ();

    ghost scope = { λ teller. tt };

    ghost reads = { λ at s. at ≡ executed_at s };

    ghost tells = { λ teller first now. CoversSteps teller.coverage first.bytes now.bytes };

    ghost lost = { λ scope first now. CoversPart first.bytes now.bytes };

    ghost part = { λ scope first now. CoversPart first.bytes now.bytes };

    ghost ready = { λ teller s. Unit {0} };

    fn part_law(&self) {}

    fn burst(&mut self, board: &mut Board, most: u64) -> Result<u64, NoMemory> {
        silent_law();
        Ok(self.coverage.burst(board, most))
    }

    fn look_before(&self, board: &Board) -> Result<Option<u32>, NoMemory> {
        executed_next(board)
    }

    fn tell<O: Sink>(
        &mut self,
        board: &Board,
        before: &Option<u32>,
        out: &mut O,
    ) -> Result<Put, NoMemory> {
        self.coverage.execute(*before);
        let world = board.world();
        self.coverage.follow(&world.mods)?;
        Ok(put_gone(&mut self.coverage, out))
    }
}

/// Makes steps, at most `limit`, and puts the text of their coverage. The modules that the steps
/// need are fetched from the folder.
///
/// # Errors
///
/// `NoMemory` if memory runs out for the coverage. Then the run is given up.
pub(crate) fn tell_coverage<F: Folder, O: Sink>(
    alloc: Global,
    board: &mut Board,
    folder: &mut F,
    modules: &str,
    out: &mut O,
    limit: u64,
) -> Result<TracedRun, NoMemory>
    requires fresh { (seen ⟦<dyn Device as Device>⟧ board.old).steps ≡ 0 }
    requires bound { limit ≤ most_steps }
    ensures told { IfOk result (λ t. Told
        (Alone t.product (TellsCoverage t.end (seen ⟦<dyn Device as Device>⟧ board.old)
        (O.bytes out.old) (O.bytes out.new)))
        (record { files = F.files folder.old; name = modules.now }) (seen ⟦<dyn Device as Device>⟧ board.old) limit
        (seen ⟦<dyn Device as Device>⟧ board.new) (F.requests folder.old) (F.requests folder.new)) }
    ensures given_up { OnErr result (Told
        (TellsCoveragePart (seen ⟦<dyn Device as Device>⟧ board.old) (O.bytes out.old) (O.bytes out.new))
        (record { files = F.files folder.old; name = modules.now }) (seen ⟦<dyn Device as Device>⟧ board.old) limit
        (seen ⟦<dyn Device as Device>⟧ board.new) (F.requests folder.old) (F.requests folder.new)) }
    ensures read_fault { IfOk result (λ t. t.end ≡ ends.ReadFault → Rose (F.faults folder.old) (F.faults folder.new)) }
    ensures fault { IfOk result (λ t. t.end ≡ ends.WriteFault → Rose (O.faults out.old) (O.faults out.new)) }
    ensures keeps { KeepsFiles ⟦<F as Folder>⟧ ⟦<O as Sink>⟧ folder.old out.old folder.new out.new }
{
    let coverage = Coverage::new(alloc, &board.world().mods)?;
    let mut teller = Coverer { coverage };
    let end = tell_run(alloc, board, folder, modules, out, limit, &mut teller)?;
    if let RunEnd::WriteFault = end {
        return Ok(TracedRun::text(end));
    }
    let text = teller.coverage.into_text()?;
    Ok(TracedRun::text(put_text(out, &text, end)))
}
