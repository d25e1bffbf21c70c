//! A run, told by how much its steps write.

ghost use Rattle.std.specs.Prelude.{◌≡◌, ◌≤◌};
ghost use Rattle.wind_base.specs.Limits.{most_steps};
ghost use Rattle.wind_outside.specs.Counts.{Rose};
ghost use Rattle.generated_session.specs.Puts.{sink_log};
ghost use Rattle.board_player.specs.Seen.{seen};
ghost use Rattle.wind_session.specs.{Keeping.KeepsFiles, Runs.Counted};
ghost use Rattle.wind_session.specs.declared.run.RunEnd.TheVariants as ends;

use crate::run::RunEnd;
use crate::telling::{Teller, tell_run};
use board_player::{Board, silent_law};
use std::alloc::Global;
use std::convert::Infallible;
use wind_outside::{Device, Folder, Put, Sink};

// Counts the bytes that the steps write, and puts nothing.
#[derive(Drop)]
struct ByteCount {
    bytes: u128,
}

impl Teller for ByteCount {
    ghost use Rattle.std.specs.Prelude.{◌≤◌, ◌*◌, ◌^◌};
    ghost use Rattle.wind_session.specs.Telling.{CountsBytes};

    type Before = ();

    type Error = Infallible;

    type Scope = ();

    ghost scope = { λ teller. tt };

    ghost reads = { λ before s. Unit {0} };

    ghost tells = { λ teller. CountsBytes teller.bytes };

    ghost lost = { λ scope first now said s k. ⊥ };

    ghost part = { λ scope first now said s k. Unit {0} };

    ghost ready = { λ teller s. teller.bytes ≤ s.steps * 2 ^ 64 };

    #[inline(always)]
    fn part_law(&self) {}

    #[inline(always)]
    fn burst(&mut self, board: &mut Board, most: u64) -> Result<u64, Infallible> {
        silent_law();
        Ok(board.burst(most))
    }

    #[inline(always)]
    fn look_before(&self, _: &Board) -> Result<(), Infallible> {
        Ok(())
    }

    #[inline(always)]
    fn tell<O: Sink>(&mut self, board: &Board, _: &(), _: &mut O) -> Result<Put, Infallible> {
        self.bytes += board.output().len() as u128;
        Ok(Put::Done)
    }
}

/// A run whose output was counted instead of put.
#[derive(Clone, Copy)]
pub struct Tally {
    /// How the run ended.
    pub end: RunEnd,
    /// How many bytes its steps wrote in total.
    pub bytes: u128,
}

/// Makes steps, at most `limit`, and counts what each of them writes. The modules that the steps
/// need are fetched from the folder. Nothing is put into the sink.
pub fn count_board<F: Folder, O: Sink>(
    alloc: Global,
    board: &mut Board,
    folder: &mut F,
    modules: &str,
    out: &mut O,
    limit: u64,
) -> Tally
    requires fresh { (seen ⟦<dyn Device as Device>⟧ board.old).steps ≡ 0 }
    requires bound { limit ≤ most_steps }
    ensures counted { Counted result.end (record { files = F.files folder.old; name = modules.now })
        (seen ⟦<dyn Device as Device>⟧ board.old) limit result.bytes (seen ⟦<dyn Device as Device>⟧ board.new)
        (F.requests folder.old) (F.requests folder.new) }
    ensures untouched { sink_log ⟦<O as Sink>⟧ out.new ≡ sink_log ⟦<O as Sink>⟧ out.old }
    ensures read_fault { result.end ≡ ends.ReadFault → Rose (F.faults folder.old) (F.faults folder.new) }
    ensures keeps { KeepsFiles ⟦<F as Folder>⟧ ⟦<O as Sink>⟧ folder.old out.old folder.new out.new }
{
    let mut teller = ByteCount { bytes: 0 };
    let Ok(end) = tell_run(alloc, board, folder, modules, out, limit, &mut teller);
    Tally {
        end,
        bytes: teller.bytes,
    }
}
