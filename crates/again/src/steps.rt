//! One step of a run whose module files are kept.

ghost use Rattle.std.specs.Prelude.{◌≡◌, ◌+◌, ◌<◌, true, Some, IfErr, OnOk, OnErr};
ghost use Rattle.wind_base.specs.Limits.{most_steps};
ghost use Rattle.wind_outside.specs.Counts.{Rose};
ghost use Rattle.kept_files.specs.Kept.{Grows, IsTrue, kept_of};
ghost use Rattle.board_player.specs.{Seen.seen, LiveLoadingSaid.said_of, WindMachineMachine.{file_asked, machine_step}};
ghost use Rattle.wind_session.specs.{Keeping.KeepsFolder, Runs.{IsHalt, is_given_up}};
ghost use Rattle.wind_session.specs.declared.run.RunEnd.TheVariants as ends;
ghost use Rattle.kept_files.specs.declared.kept.Unkept.TheVariants as unkept;
ghost use Rattle.again.specs.Reaching.{GoesOn};

use board_player::Step;
use kept_files::{FileAnswer, KeptFiles, Unkept};
use std::alloc::Global;
use wind_base::{Name, NoMemory};
use wind_outside::{Device, Folder};
use wind_session::{Board, RunEnd, path_in};

// How a run ends if no answer can be had.
fn end_of(why: Unkept) -> RunEnd
    ensures given_up { is_given_up result ≡ true }
    ensures failed { result ≡ ends.ReadFault → why ≡ unkept.Failed }
{
    match why {
        Unkept::Failed => RunEnd::ReadFault,
        Unkept::NoMemory => RunEnd::NoMemory,
    }
}

// Makes the step that loads the module with this name, given the answer about its file.
fn load(board: &mut Board, name: &Name, file: &FileAnswer) -> Result<(), RunEnd>
    requires few { (seen ⟦<dyn Device as Device>⟧ board.old).steps < most_steps }
    requires asked { file_asked (seen ⟦<dyn Device as Device>⟧ board.old) ≡ Some name.now }
    ensures made { OnOk result (machine_step (said_of file.now) (seen ⟦<dyn Device as Device>⟧ board.old)
        ≡ Some (seen ⟦<dyn Device as Device>⟧ board.new)) }
    ensures counted { OnOk result ((seen ⟦<dyn Device as Device>⟧ board.new).steps
        ≡ (seen ⟦<dyn Device as Device>⟧ board.old).steps + 1) }
    ensures memory { IfErr result (λ end. end ≡ ends.NoMemory) }
    ensures unchanged { OnErr result (seen ⟦<dyn Device as Device>⟧ board.new
        ≡ seen ⟦<dyn Device as Device>⟧ board.old) }
{
    match board.step_load(name, file) {
        Ok(()) => Ok(()),
        Err(NoMemory) => Err(RunEnd::NoMemory),
    }
}

// Makes the step that loads the module with this name. Its file is fetched, unless an answer is
// kept.
#[inline(never)]
fn load_kept<F: Folder>(
    alloc: Global,
    board: &mut Board,
    kept: &mut KeptFiles,
    folder: &mut F,
    modules: &str,
    name: &Name,
) -> Result<(), RunEnd>
    requires few { (seen ⟦<dyn Device as Device>⟧ board.old).steps < most_steps }
    requires asked { file_asked (seen ⟦<dyn Device as Device>⟧ board.old) ≡ Some name.now }
    ensures made { OnOk result (GoesOn modules.now (kept_of kept.old) (kept_of kept.new) 1
        (seen ⟦<dyn Device as Device>⟧ board.old) (seen ⟦<dyn Device as Device>⟧ board.new)
        (seen ⟦<dyn Device as Device>⟧ board.new).world.output) }
    ensures counted { OnOk result ((seen ⟦<dyn Device as Device>⟧ board.new).steps
        ≡ (seen ⟦<dyn Device as Device>⟧ board.old).steps + 1) }
    ensures given_up { IfErr result (λ end. is_given_up end ≡ true) }
    ensures fault { IfErr result (λ end. end ≡ ends.ReadFault → Rose (F.faults folder.old) (F.faults folder.new)) }
    ensures unchanged { OnErr result (seen ⟦<dyn Device as Device>⟧ board.new
        ≡ seen ⟦<dyn Device as Device>⟧ board.old) }
    ensures grows { Grows (kept_of kept.old) (kept_of kept.new) }
    ensures truth { IsTrue (F.files folder.old) (kept_of kept.old)
        → IsTrue (F.files folder.new) (kept_of kept.new) }
    ensures keeps { KeepsFolder (F.files folder.old) (F.files folder.new) (F.faults folder.old) (F.faults folder.new) }
{
    let Ok(text) = str::from_utf8(name.bytes()) else {
        return load(board, name, &FileAnswer::NoFile);
    };
    let Ok(path) = path_in(alloc, modules, text) else {
        return Err(RunEnd::NoMemory);
    };
    match kept.keep(alloc, folder, &path) {
        Ok(()) => load(board, name, kept.get(&path).unwrap()),
        Err(why) => Err(end_of(why)),
    }
}

/// Makes the next step; the error says how the run ends if none is made. If the step needs a module
/// of which no answer is kept, its file is fetched from the folder. Its path is the name of the
/// folder of modules, `/` and its own name.
///
/// # Errors
///
/// `Quiet` if there is no further step, `ReadFault` if the step's file could not be read, and
/// `NoMemory` if host memory ran out. Then the board is as it was.
pub fn step<F: Folder>(
    alloc: Global,
    board: &mut Board,
    kept: &mut KeptFiles,
    folder: &mut F,
    modules: &str,
) -> Result<(), RunEnd>
    requires { (seen ⟦<dyn Device as Device>⟧ board.old).steps < most_steps }
    ensures made { OnOk result (GoesOn modules.now (kept_of kept.old) (kept_of kept.new) 1
        (seen ⟦<dyn Device as Device>⟧ board.old) (seen ⟦<dyn Device as Device>⟧ board.new)
        (seen ⟦<dyn Device as Device>⟧ board.new).world.output) }
    ensures counted { OnOk result ((seen ⟦<dyn Device as Device>⟧ board.new).steps
        ≡ (seen ⟦<dyn Device as Device>⟧ board.old).steps + 1) }
    ensures halts { IfErr result (λ end. IsHalt end (seen ⟦<dyn Device as Device>⟧ board.old)) }
    ensures fault { IfErr result (λ end. end ≡ ends.ReadFault → Rose (F.faults folder.old) (F.faults folder.new)) }
    ensures unchanged { OnErr result (seen ⟦<dyn Device as Device>⟧ board.new
        ≡ seen ⟦<dyn Device as Device>⟧ board.old) }
    ensures grows { Grows (kept_of kept.old) (kept_of kept.new) }
    ensures truth { IsTrue (F.files folder.old) (kept_of kept.old)
        → IsTrue (F.files folder.new) (kept_of kept.new) }
    ensures keeps { KeepsFolder (F.files folder.old) (F.files folder.new) (F.faults folder.old) (F.faults folder.new) }
{
    match board.step() {
        Step::Stepped => Ok(()),
        Step::Quiet => Err(RunEnd::Quiet),
        Step::NoMemory => Err(RunEnd::NoMemory),
        Step::NeedsFile(name) => load_kept(alloc, board, kept, folder, modules, &name),
    }
}
