//! Many steps of a run whose module files are kept.

ghost use Rattle.std.specs.Prelude.{◌≡◌, ◌≢◌, ◌+◌, ◌<◌, ◌≤◌, []};
ghost use Rattle.wind_base.specs.Limits.{most_steps};
ghost use Rattle.wind_outside.specs.Counts.{Rose};
ghost use Rattle.kept_files.specs.Kept.{Grows, IsTrue, kept_of};
ghost use Rattle.board_player.specs.{Seen.seen};
ghost use Rattle.wind_session.specs.{Keeping.KeepsFolder, Runs.IsHalt};
ghost use Rattle.wind_session.specs.declared.run.RunEnd.{RunEnd as RunEnd_lem};
ghost use Rattle.wind_session.specs.declared.run.RunEnd.TheVariants as ends;
ghost use Rattle.again.specs.Reaching.{GoesBy, written_by};
ghost use Rattle.again.specs.declared.going.Going.TheVariants as goings;

use crate::steps::step;
use board_player::silent_law;
use kept_files::KeptFiles;
use std::alloc::Global;
use wind_outside::{Device, Folder};
use wind_session::{Board, RunEnd};

/// Why steps were made no further.
#[derive(Clone, Copy, Debug, PartialEq, Eq)]
pub enum Going {
    /// As many as asked for were made, and none wrote anything.
    Made,
    /// The last one wrote what the board's output is, and none before it wrote anything.
    Wrote,
    /// There is no further step, or it can't be made; none wrote anything.
    Ended(RunEnd),
}

/// Makes at most `most` further steps, until one writes something.
pub fn go<F: Folder>(
    alloc: Global,
    board: &mut Board,
    kept: &mut KeptFiles,
    folder: &mut F,
    modules: &str,
    most: u64,
) -> Going
    requires { (seen ⟦<dyn Device as Device>⟧ board.old).steps + most ≤ most_steps }
    ensures made { GoesBy modules.now (kept_of kept.old) (kept_of kept.new) most
        (seen ⟦<dyn Device as Device>⟧ board.old) (seen ⟦<dyn Device as Device>⟧ board.new)
        (written_by result (seen ⟦<dyn Device as Device>⟧ board.new)) }
    ensures all { result ≡ goings.Made → (seen ⟦<dyn Device as Device>⟧ board.new).steps
        ≡ (seen ⟦<dyn Device as Device>⟧ board.old).steps + most }
    ensures wrote { result ≡ goings.Wrote → (seen ⟦<dyn Device as Device>⟧ board.new).world.output ≢ [] }
    ensures further { result ≡ goings.Wrote → (seen ⟦<dyn Device as Device>⟧ board.old).steps
        < (seen ⟦<dyn Device as Device>⟧ board.new).steps }
    ensures halts { (end : RunEnd_lem) → result ≡ goings.Ended end → IsHalt end (seen ⟦<dyn Device as Device>⟧ board.new) }
    ensures fewer { (end : RunEnd_lem) → result ≡ goings.Ended end → (seen ⟦<dyn Device as Device>⟧ board.new).steps
        < (seen ⟦<dyn Device as Device>⟧ board.old).steps + most }
    ensures fault { result ≡ goings.Ended ends.ReadFault → Rose (F.faults folder.old) (F.faults folder.new) }
    ensures grows { Grows (kept_of kept.old) (kept_of kept.new) }
    ensures truth { IsTrue (F.files folder.old) (kept_of kept.old)
        → IsTrue (F.files folder.new) (kept_of kept.new) }
    ensures keeps { KeepsFolder (F.files folder.old) (F.files folder.new) (F.faults folder.old) (F.faults folder.new) }
{
    silent_law();
    let mut made = 0;
    while made < most {
        made += board.burst(most - made);
        if made == most {
            return Going::Made;
        }
        match step(alloc, board, kept, folder, modules) {
            Ok(()) => made += 1,
            Err(end) => return Going::Ended(end),
        }
        if !board.output().is_empty() {
            return Going::Wrote;
        }
    }
    Going::Made
}
