//! Plays a member.

ghost use Rattle.std.specs.Prelude.{◌≡◌, ◌≤◌, [], IfOk, IfErr};
ghost use Rattle.wind_base.specs.Limits.{most_steps};
ghost use Rattle.wind_outside.specs.Counts.{Rose};
ghost use Rattle.wind_outside.specs.Devices.{slots_of};
ghost use Rattle.wind_session.specs.BoardPlayerSeen.{seen};
ghost use Rattle.wind_session.specs.Program.{opening_devices};
ghost use Rattle.kept_files.specs.Fetching.{asked_of};
ghost use Rattle.kept_files.specs.Kept.{kept_of};
ghost use Rattle.sweep_run.specs.Fetches.{Fetches, IsGivenUp};
ghost use Rattle.sweep_run.specs.Outcomes.{IsOutcome};
ghost use Rattle.sweep_run.specs.Reached.{IsOutcomeFrom, IsRunFrom};
ghost use Rattle.sweep_run.specs.Runs.{start_state};

use crate::finish::{Finish, finish_of};
use crate::outcome::outcome_text;
use crate::start::Start;
use again::{Going, boot, go};
use kept_files::KeptFiles;
use std::alloc::Global;
use tick_file::Schedule;
use trace_text::add;
use wind_outside::{Device, Folder, Slots};
use wind_session::{Board, OpeningDevices, Status};

// Makes the steps of a run, at most the limit, and adds what they write to an empty text.
fn run<F: Folder>(
    alloc: Global,
    start: &Start,
    board: &mut Board,
    kept: &mut KeptFiles,
    folder: &mut F,
    console: &mut Vec<u8>,
) -> Result<Finish, Status>
    requires limit { start.now.limit ≤ most_steps }
    requires fresh { (seen ⟦<dyn Device as Device>⟧ board.old).steps ≡ 0 }
    requires empty { console.old.items ≡ [] }
    ensures ran { IfOk result (λ finish. IsRunFrom (start_state start.now) (kept_of kept.new)
        (seen ⟦<dyn Device as Device>⟧ board.old)
        (record { finish = finish; state = seen ⟦<dyn Device as Device>⟧ board.new; written = console.new.items })) }
    ensures given_up { IfErr result (λ s. IsGivenUp s (Rose (F.faults folder.old) (F.faults folder.new))) }
    ensures fetches { Fetches (asked_of ⟦<F as Folder>⟧ folder.old) (asked_of ⟦<F as Folder>⟧ folder.new)
        (kept_of kept.old) (kept_of kept.new) }
{
    while board.steps() < start.limit {
        let most = start.limit - board.steps();
        match go(alloc, board, kept, folder, start.modules, most) {
            Going::Made => return Ok(Finish::LimitReached),
            Going::Ended(end) => return finish_of(end),
            Going::Wrote => add(console, board.output())?,
        }
    }
    Ok(Finish::LimitReached)
}

// Plays a board from its start.
fn outcome_from<F: Folder>(
    alloc: Global,
    start: &Start,
    board: &mut Board,
    kept: &mut KeptFiles,
    folder: &mut F,
) -> Result<Vec<u8>, Status>
    requires limit { start.now.limit ≤ most_steps }
    requires fresh { (seen ⟦<dyn Device as Device>⟧ board.old).steps ≡ 0 }
    ensures outcome { IfOk result (λ text. IsOutcomeFrom (start_state start.now) (kept_of kept.new)
        (seen ⟦<dyn Device as Device>⟧ board.old) text.items) }
    ensures given_up { IfErr result (λ s. IsGivenUp s (Rose (F.faults folder.old) (F.faults folder.new))) }
    ensures fetches { Fetches (asked_of ⟦<F as Folder>⟧ folder.old) (asked_of ⟦<F as Folder>⟧ folder.new)
        (kept_of kept.old) (kept_of kept.new) }
{
    let mut console = Vec::new(alloc);
    let finish = run(alloc, start, board, kept, folder, &mut console)?;
    Ok(outcome_text(alloc, start, finish, board, &console)?)
}

// Plays a board that boots with these devices.
fn play_on<F: Folder>(
    alloc: Global,
    start: &Start,
    schedule: Schedule,
    kept: &mut KeptFiles,
    folder: &mut F,
    slots: Slots,
) -> Result<Vec<u8>, Status>
    requires devices { slots_of kind_of words_of slots.items ≡ opening_devices }
    requires limit { start.now.limit ≤ most_steps }
    ensures outcome { IfOk result (λ text. IsOutcome (start_state start.now) (kept_of kept.new) schedule text.items) }
    ensures given_up { IfErr result (λ s. IsGivenUp s (Rose (F.faults folder.old) (F.faults folder.new))) }
    ensures fetches { Fetches (asked_of ⟦<F as Folder>⟧ folder.old) (asked_of ⟦<F as Folder>⟧ folder.new)
        (kept_of kept.old) (kept_of kept.new) }
{
    let mut board = boot(
        alloc,
        slots,
        &start.console,
        schedule,
        start.profile,
        start.kind,
    )?;
    outcome_from(alloc, start, &mut board, kept, folder)
}

/// Plays the run of a board with the program's devices and these events, of at most the limit of
/// steps, and gives its outcome. The files of modules that no run has asked for before are fetched.
///
/// # Errors
///
/// `ReadFault` if the file of a module can't be read, and `NoMemory` if host memory ran out.
pub fn play<F: Folder>(
    alloc: Global,
    start: &Start,
    schedule: Schedule,
    kept: &mut KeptFiles,
    folder: &mut F,
) -> Result<Vec<u8>, Status>
    requires { start.now.limit ≤ most_steps }
    ensures outcome { IfOk result (λ text. IsOutcome (start_state start.now) (kept_of kept.new) schedule text.items) }
    ensures given_up { IfErr result (λ s. IsGivenUp s (Rose (F.faults folder.old) (F.faults folder.new))) }
    ensures fetches { Fetches (asked_of ⟦<F as Folder>⟧ folder.old) (asked_of ⟦<F as Folder>⟧ folder.new)
        (kept_of kept.old) (kept_of kept.new) }
{
    let Ok(devices) = OpeningDevices::new(alloc) else {
        return Err(Status::NoMemory);
    };
    let mut slots = devices.slots;
    slots.push(Some(devices.latch)).unwrap();
    slots.push(Some(devices.fifo)).unwrap();
    slots.push(Some(devices.counter)).unwrap();
    play_on(alloc, start, schedule, kept, folder, slots)
}
