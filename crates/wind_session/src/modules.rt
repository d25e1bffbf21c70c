//! The steps of a run, with the module files that they need.

ghost use Rattle.std.specs.Prelude.{◌≡◌, ◌+◌, ◌<◌, true, Some, IfOk, IfErr, OnOk, OnErr};
ghost use Rattle.wind_base.specs.Limits.{most_steps};
ghost use Rattle.wind_outside.specs.Counts.{Rose};
ghost use Rattle.board_player.specs.LiveLoadingSaid.{FileSaid, said_of};
ghost use Rattle.board_player.specs.WindMachineMachine.{file_asked, machine_step};
ghost use Rattle.board_player.specs.WindMachineReplies.{step_reply};
ghost use Rattle.board_player.specs.Seen.{last_reply, seen};
ghost use Rattle.wind_session.specs.Keeping.{KeepsFolder};
ghost use Rattle.wind_session.specs.Modules.{IsSaid, IsSaidOf};
ghost use Rattle.wind_outside.specs.Requests.{GrowsBy};
ghost use Rattle.wind_session.specs.Fetches.{Stops, module_request, outcome_said, step_request};
ghost use Rattle.wind_session.specs.Runs.{IsHalt, is_given_up};
ghost use Rattle.wind_session.specs.declared.run.RunEnd.TheVariants as ends;

use crate::paths::path_in;
use crate::run::RunEnd;
use board_player::{Board, FileAnswer, Step};
use std::alloc::Global;
use wind_base::limits::MODULE_FILE_BYTES;
use wind_base::{Name, NoMemory};
use wind_outside::{Device, Fetched, Folder};

// What the folder says of the module with this name; the error says why nothing is known of it.
fn fetched_module<F: Folder>(
    alloc: Global,
    folder: &mut F,
    modules: &str,
    name: &Name,
) -> Result<FileAnswer, RunEnd>
    ensures said { IfOk result (λ file. IsSaidOf (record { files = F.files folder.old; name = modules.now })
        name.now (said_of file)) }
    ensures requested { IfOk result (λ file. GrowsBy (F.requests folder.old) (F.requests folder.new)
        (module_request modules.now name.now (outcome_said (said_of file)))) }
    ensures given_up { IfErr result (λ end. is_given_up end ≡ true) }
    ensures stops { IfErr result (λ end. Stops end modules.now (Some name.now)
        (F.requests folder.old) (F.requests folder.new)) }
    ensures fault { IfErr result (λ end. end ≡ ends.ReadFault → Rose (F.faults folder.old) (F.faults folder.new)) }
    ensures keeps { KeepsFolder (F.files folder.old) (F.files folder.new) (F.faults folder.old) (F.faults folder.new) }
{
    let Ok(name) = str::from_utf8(name.bytes()) else {
        return Ok(FileAnswer::NoFile);
    };
    let Ok(path) = path_in(alloc, modules, name) else {
        return Err(RunEnd::NoMemory);
    };
    match folder.fetch(alloc, &path, MODULE_FILE_BYTES) {
        Fetched::Found(bytes) => Ok(FileAnswer::File(bytes)),
        Fetched::Missing => Ok(FileAnswer::NoFile),
        Fetched::TooLong => Ok(FileAnswer::LongFile),
        Fetched::Failed => Err(RunEnd::ReadFault),
        Fetched::NoMemory => Err(RunEnd::NoMemory),
    }
}

// Makes the step that loads the module with this name, given what the folder says of its file; the
// error says how the run ends.
#[inline(never)]
fn load_step<F: Folder>(
    alloc: Global,
    board: &mut Board,
    folder: &mut F,
    modules: &str,
    name: &Name,
) -> Result<(), RunEnd>
    requires few { (seen ⟦<dyn Device as Device>⟧ board.old).steps < most_steps }
    requires asked { file_asked (seen ⟦<dyn Device as Device>⟧ board.old) ≡ Some name.now }
    ensures made { OnOk result ((said : FileSaid)
        × IsSaidOf (record { files = F.files folder.old; name = modules.now }) name.now said
        × (machine_step said (seen ⟦<dyn Device as Device>⟧ board.old) ≡ Some (seen ⟦<dyn Device as Device>⟧ board.new))
        × GrowsBy (F.requests folder.old) (F.requests folder.new)
        (module_request modules.now name.now (outcome_said said))
        × (last_reply board.new ≡ step_reply said (seen ⟦<dyn Device as Device>⟧ board.old))) }
    ensures counted { OnOk result ((seen ⟦<dyn Device as Device>⟧ board.new).steps
        ≡ (seen ⟦<dyn Device as Device>⟧ board.old).steps + 1) }
    ensures given_up { IfErr result (λ end. is_given_up end ≡ true) }
    ensures stops { IfErr result (λ end. Stops end modules.now (Some name.now)
        (F.requests folder.old) (F.requests folder.new)) }
    ensures fault { IfErr result (λ end. end ≡ ends.ReadFault → Rose (F.faults folder.old) (F.faults folder.new)) }
    ensures unchanged { OnErr result (seen ⟦<dyn Device as Device>⟧ board.new
        ≡ seen ⟦<dyn Device as Device>⟧ board.old) }
    ensures keeps { KeepsFolder (F.files folder.old) (F.files folder.new) (F.faults folder.old) (F.faults folder.new) }
{
    let file = fetched_module(alloc, folder, modules, name)?;
    match board.step_load(name, &file) {
        Ok(()) => Ok(()),
        Err(NoMemory) => Err(RunEnd::NoMemory),
    }
}

/// Makes the next step; the error says how the run ends if none is made. If the step needs a module,
/// it is fetched from the folder. Its path is the name of the folder of modules, `/` and its own
/// name.
///
/// # Errors
///
/// `Quiet` if there is no further step, `ReadFault` if the step's file could not be read, and
/// `NoMemory` if host memory ran out. Then the board is as it was.
#[inline(always)]
pub fn step<F: Folder>(
    alloc: Global,
    board: &mut Board,
    folder: &mut F,
    modules: &str,
) -> Result<(), RunEnd>
    requires { (seen ⟦<dyn Device as Device>⟧ board.old).steps < most_steps }
    ensures made { OnOk result ((said : FileSaid)
        × IsSaid (record { files = F.files folder.old; name = modules.now })
        (seen ⟦<dyn Device as Device>⟧ board.old) said
        × (machine_step said (seen ⟦<dyn Device as Device>⟧ board.old) ≡ Some (seen ⟦<dyn Device as Device>⟧ board.new))
        × GrowsBy (F.requests folder.old) (F.requests folder.new)
        (step_request modules.now (file_asked (seen ⟦<dyn Device as Device>⟧ board.old)) (outcome_said said))
        × (last_reply board.new ≡ step_reply said (seen ⟦<dyn Device as Device>⟧ board.old))) }
    ensures counted { OnOk result ((seen ⟦<dyn Device as Device>⟧ board.new).steps
        ≡ (seen ⟦<dyn Device as Device>⟧ board.old).steps + 1) }
    ensures halts { IfErr result (λ end. IsHalt end (seen ⟦<dyn Device as Device>⟧ board.old)) }
    ensures stops { IfErr result (λ end. Stops end modules.now (file_asked (seen ⟦<dyn Device as Device>⟧ board.old))
        (F.requests folder.old) (F.requests folder.new)) }
    ensures fault { IfErr result (λ end. end ≡ ends.ReadFault → Rose (F.faults folder.old) (F.faults folder.new)) }
    ensures unchanged { OnErr result (seen ⟦<dyn Device as Device>⟧ board.new
        ≡ seen ⟦<dyn Device as Device>⟧ board.old) }
    ensures keeps { KeepsFolder (F.files folder.old) (F.files folder.new) (F.faults folder.old) (F.faults folder.new) }
{
    match board.step() {
        Step::Stepped => Ok(()),
        Step::Quiet => Err(RunEnd::Quiet),
        Step::NoMemory => Err(RunEnd::NoMemory),
        Step::NeedsFile(name) => load_step(alloc, board, folder, modules, &name),
    }
}
