//! A run, told as a picture.

ghost use Rattle.std.specs.Prelude.{◌≡◌, ◌≤◌, IfOk, OnErr};
ghost use Rattle.wind_base.specs.Limits.{most_steps};
ghost use Rattle.wind_outside.specs.Counts.{Rose};
ghost use Rattle.wind_session.specs.{Keeping.KeepsFiles, Telling.Told};
ghost use Rattle.wind_session.specs.BoardPlayerSeen.{seen};
ghost use Rattle.wind_session.specs.declared.run.RunEnd.TheVariants as ends;
ghost use Rattle.trace_session.specs.Choice.{choice_state};
ghost use Rattle.trace_session.specs.Traced.{TellsAreas, TellsNothing};

use crate::choice::Choice;
use crate::observer::Observer;
use crate::part_spans::burst_within;
use crate::put::put_text;
use crate::traced::{Product, TracedRun};
use board_trace::BeforeStep;
use std::alloc::Global;
use trace_state::look_before;
use wind_base::NoMemory;
use wind_outside::{Device, Folder, Put, Sink};
use wind_session::{Board, Teller, tell_run};

impl<'a> Teller for Observer<'a> {
    ghost use Rattle.std.specs.Prelude.{◌≡◌};
    ghost use Rattle.board_trace.specs.{Before.before_step};
    ghost use Rattle.trace_session.specs.Choice.{choice_state};
    ghost use Rattle.trace_session.specs.Traced.{SeesSteps};

    type Before = BeforeStep;

    type Error = NoMemory;

    type Scope = &'a Choice;

    ghost scope = { λ o. o.choice };

    ghost reads = { λ before s. before ≡ before_step s };

    ghost tells = { λ o first now. SeesSteps (choice_state o.choice.now) o.spans o.areas };

    ghost lost = { λ scope first now said s k. ⊥ };

    ghost part = { λ scope first now said s k. Unit {0} };

    ghost ready = { λ o s. Unit {0} };

    fn part_law(&self) {}

    fn burst(&mut self, board: &mut Board, most: u64) -> Result<u64, NoMemory> {
        Ok(burst_within(board, self.choice, most))
    }

    fn look_before(&self, board: &Board) -> Result<BeforeStep, NoMemory> {
        look_before(board)
    }

    fn tell<O: Sink>(
        &mut self,
        board: &Board,
        before: &BeforeStep,
        _: &mut O,
    ) -> Result<Put, NoMemory> {
        self.look(board, before)?;
        Ok(Put::Done)
    }
}

/// Makes steps, at most `limit`, and puts a picture of those that are chosen. The modules that
/// the steps need are fetched from the folder.
///
/// # Errors
///
/// `NoMemory` if memory runs out for the picture. Then the run is given up.
pub(crate) fn draw_timeline<F: Folder, O: Sink>(
    alloc: Global,
    choice: &Choice,
    board: &mut Board,
    folder: &mut F,
    modules: &str,
    out: &mut O,
    limit: u64,
) -> Result<TracedRun, NoMemory>
    requires fresh { (seen ⟦<dyn Device as Device>⟧ board.old).steps ≡ 0 }
    requires bound { limit ≤ most_steps }
    ensures told { IfOk result (λ t. Told
        (TellsAreas (choice_state choice.now) t.product t.end
        (seen ⟦<dyn Device as Device>⟧ board.old))
        (record { files = F.files folder.old; name = modules.now }) (seen ⟦<dyn Device as Device>⟧ board.old) limit
        (seen ⟦<dyn Device as Device>⟧ board.new) (F.requests folder.old) (F.requests folder.new)) }
    ensures given_up { OnErr result (Told
        TellsNothing
        (record { files = F.files folder.old; name = modules.now }) (seen ⟦<dyn Device as Device>⟧ board.old) limit
        (seen ⟦<dyn Device as Device>⟧ board.new) (F.requests folder.old) (F.requests folder.new)) }
    ensures read_fault { IfOk result (λ t. t.end ≡ ends.ReadFault → Rose (F.faults folder.old) (F.faults folder.new)) }
    ensures fault { IfOk result (λ t. t.end ≡ ends.WriteFault → Rose (O.faults out.old) (O.faults out.new)) }
    ensures keeps { KeepsFiles ⟦<F as Folder>⟧ ⟦<O as Sink>⟧ folder.old out.old folder.new out.new }
{
    let mut observer = Observer::new(alloc, choice, board)?;
    let end = tell_run(alloc, board, folder, modules, out, limit, &mut observer)?;
    observer.close(board)?;
    let areas = observer.take_areas();
    let mut text = Vec::new(alloc);
    observer.draw(&mut text, &areas)?;
    Ok(TracedRun {
        end: put_text(out, &text, end),
        product: Product::Picture(areas),
    })
}
