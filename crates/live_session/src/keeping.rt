//! Whether the record may be written, and the writing of it.

ghost use Rattle.std.specs.Prelude.{◌≡◌, ◌≢◌, ◌≤◌, [], IsTrue, None, false, Err, IfErr, OnOk, OnErr};
ghost use Rattle.wind_base.specs.Limits.{most_steps};
ghost use Rattle.wind_outside.specs.Counts.{Rose};
ghost use Rattle.wind_session.specs.Keeping.{Around, messages};
ghost use Rattle.live_session.specs.Ending.{is_quiet};
ghost use Rattle.live_session.specs.Journal.{Journaled};
ghost use Rattle.live_session.specs.LiveAround.{store};
ghost use Rattle.live_session.specs.Moments.{IsTold};
ghost use Rattle.live_session.specs.Obeying.{Saves};
ghost use Rattle.live_session.specs.Saving.{IsOpened, IsSaved, IsSavedInPart, KeepsOthers, WritesFor, replay_limit as replay_limit_lem};
ghost use Rattle.live_session.specs.Seen.{live_seen, IsSound};
ghost use Rattle.live_session.specs.Session.{IsPermitted, IsRefusal};
ghost use Rattle.live_session.specs.Telling.{failure_text};
ghost use Rattle.live_session.specs.Words.{command_state, IsTarget};
ghost use Rattle.live_session.specs.declared.saving.Unsaved.TheVariants as unsaved;
ghost use Rattle.live_session.specs.declared.status.Status.TheVariants as status;

use crate::aside::make_room;
use crate::live::Live;
use crate::messages::{tell, tell_no_memory, tell_of};
use crate::record_folder::RecordFolder;
use crate::saving::{Claim, Target, Unsaved, find_claim, replay_limit, save};
use std::alloc::Global;
use tick_file::writing_law;
use wind_outside::{Device, Put, Sink};
use wind_session::RunEnd;

/// Whether the record may be written; says why not.
pub(crate) fn may_record<E: Sink, D: RecordFolder>(
    err: &mut E,
    records: &mut D,
    target: Target,
) -> bool
    requires { IsTarget target }
    ensures permitted { IsTrue result → IsPermitted (command_state target.entry.command.now) (D.files records.old) }
    ensures refused { result ≡ false → IsRefusal status.Unrecorded (command_state target.entry.command.now)
        (D.files records.old) (Rose (D.faults records.old) (D.faults records.new)) }
    ensures files { D.files records.new ≡ D.files records.old }
    ensures never_falls { D.faults records.old ≤ D.faults records.new }
{
    let command = target.command;
    if command.record.is_empty() || command.force || command.continues {
        return true;
    }
    let name = target.command.record.as_bytes();
    match find_claim(records, target) {
        Claim::Free => true,
        Claim::Taken => {
            tell_of(
                err,
                name,
                b": a record is there; --force renames its files to NAME.old\n",
            );
            false
        }
        Claim::Failed => {
            tell_of(err, name, b": can't be read\n");
            false
        }
    }
}

/// Writes the record of a session with this limit, or says why not.
fn write_files<E: Sink, D: RecordFolder>(
    alloc: Global,
    target: Target,
    live: &Live,
    err: &mut E,
    records: &mut D,
    limit: u64,
) -> Result<(), Unsaved>
    requires target { IsTarget target }
    ensures ok { OnOk result (IsSaved (command_state target.entry.command.now)
        (live_seen ⟦<dyn Device as Device>⟧ live.now).console.bytes
        (live_seen ⟦<dyn Device as Device>⟧ live.now).ticks.bytes
        limit (D.files records.old) (D.files records.new)) }
    ensures parts { IsSavedInPart (command_state target.entry.command.now)
        (live_seen ⟦<dyn Device as Device>⟧ live.now).console.bytes
        (live_seen ⟦<dyn Device as Device>⟧ live.now).ticks.bytes
        limit (D.files records.old) (D.files records.new) }
    ensures others { KeepsOthers target.entry.command.now.record.now (D.files records.old) (D.files records.new) }
    ensures failed { result ≡ Err unsaved.Failed → Rose (D.faults records.old) (D.faults records.new) }
    ensures never_falls { D.faults records.old ≤ D.faults records.new }
    ensures quiet { OnOk result (messages ⟦<E as Sink>⟧ err.new ≡ messages ⟦<E as Sink>⟧ err.old) }
    ensures told { IfErr result (λ failure. IsTold (failure_text target.entry.command.now.record.now failure)
        (messages ⟦<E as Sink>⟧ err.old) (messages ⟦<E as Sink>⟧ err.new)) }
{
    let saved = save(alloc, records, target, &live.record, limit);
    match saved {
        Ok(()) => {}
        Err(Unsaved::Failed) => {
            let name = target.command.record.as_bytes();
            tell_of(err, name, b": the record was not written\n");
        }
        Err(Unsaved::NoMemory) => tell_no_memory(err),
    }
    saved
}

/// Writes the record of a session whose board's last run ended like this, or says why not.
pub(crate) fn write_record<E: Sink, D: RecordFolder>(
    alloc: Global,
    target: Target,
    live: &Live,
    err: &mut E,
    records: &mut D,
    end: RunEnd,
) -> Result<(), Unsaved>
    requires target { IsTarget target }
    requires few { (live_seen ⟦<dyn Device as Device>⟧ live.now).board.steps ≤ most_steps }
    ensures ok { OnOk result (IsSaved (command_state target.entry.command.now)
        (live_seen ⟦<dyn Device as Device>⟧ live.now).console.bytes
        (live_seen ⟦<dyn Device as Device>⟧ live.now).ticks.bytes
        (replay_limit_lem (live_seen ⟦<dyn Device as Device>⟧ live.now).board.steps (is_quiet end))
        (D.files records.old) (D.files records.new)) }
    ensures parts { IsSavedInPart (command_state target.entry.command.now)
        (live_seen ⟦<dyn Device as Device>⟧ live.now).console.bytes
        (live_seen ⟦<dyn Device as Device>⟧ live.now).ticks.bytes
        (replay_limit_lem (live_seen ⟦<dyn Device as Device>⟧ live.now).board.steps (is_quiet end))
        (D.files records.old) (D.files records.new) }
    ensures others { KeepsOthers target.entry.command.now.record.now (D.files records.old) (D.files records.new) }
    ensures failed { result ≡ Err unsaved.Failed → Rose (D.faults records.old) (D.faults records.new) }
    ensures never_falls { D.faults records.old ≤ D.faults records.new }
    ensures quiet { OnOk result (messages ⟦<E as Sink>⟧ err.new ≡ messages ⟦<E as Sink>⟧ err.old) }
    ensures told { IfErr result (λ failure. IsTold (failure_text target.entry.command.now.record.now failure)
        (messages ⟦<E as Sink>⟧ err.old) (messages ⟦<E as Sink>⟧ err.new)) }
{
    let limit = replay_limit(live.board.steps(), end == RunEnd::Quiet);
    write_files(alloc, target, live, err, records, limit)
}

/// Makes the folder of the record, sets an older record aside if the command has `--force`, and
/// writes the record of a session that begins, with this limit. Says why not. Does nothing if no
/// record is asked for.
pub(crate) fn open_record<E: Sink, D: RecordFolder>(
    alloc: Global,
    target: Target,
    live: &Live,
    err: &mut E,
    records: &mut D,
    limit: u64,
) -> Result<(), Unsaved>
    requires target { IsTarget target }
    ensures unnamed { target.entry.command.now.record.now ≡ [] → OnErr result ⊥
        × (D.files records.new ≡ D.files records.old) }
    ensures ok { OnOk result (target.entry.command.now.record.now ≢ [] → IsOpened (command_state target.entry.command.now)
        (live_seen ⟦<dyn Device as Device>⟧ live.now).console.bytes
        (live_seen ⟦<dyn Device as Device>⟧ live.now).ticks.bytes
        limit (D.files records.old) (D.files records.new)) }
    ensures writes { WritesFor (command_state target.entry.command.now) (D.files records.old) (D.files records.new) }
    ensures failed { result ≡ Err unsaved.Failed → Rose (D.faults records.old) (D.faults records.new) }
    ensures never_falls { D.faults records.old ≤ D.faults records.new }
{
    if target.command.record.is_empty() {
        return Ok(());
    }
    if records.make(target.command.record) == Put::Failed {
        let name = target.command.record.as_bytes();
        tell_of(err, name, b": the folder can't be made\n");
        return Err(Unsaved::Failed);
    }
    if let Err(failure) = make_room(alloc, target, records) {
        let name = target.command.record.as_bytes();
        tell_of(err, name, b": its files can't be renamed to NAME.old\n");
        return Err(failure);
    }
    write_files(alloc, target, live, err, records, limit)
}

/// Writes the record now, if the command names a folder for it. Says what became of it.
pub(crate) fn save_now<E: Sink, D: RecordFolder>(
    alloc: Global,
    target: Target,
    live: &Live,
    err: &mut E,
    records: &mut D,
    end: RunEnd,
)
    requires target { IsTarget target }
    requires sound { IsSound (live_seen ⟦<dyn Device as Device>⟧ live.now) }
    ensures saves { Saves (command_state target.entry.command.now) (live_seen ⟦<dyn Device as Device>⟧ live.now) end
        (messages ⟦<E as Sink>⟧ err.old) (messages ⟦<E as Sink>⟧ err.new)
        (store ⟦<D as RecordFolder>⟧ records.old) (store ⟦<D as RecordFolder>⟧ records.new) }
    ensures journal { (now : Around) → Journaled (command_state target.entry.command.now) None end
        (live_seen ⟦<dyn Device as Device>⟧ live.now) now (store ⟦<D as RecordFolder>⟧ records.old)
        (live_seen ⟦<dyn Device as Device>⟧ live.now) now (store ⟦<D as RecordFolder>⟧ records.new) }
{
    writing_law();
    if target.command.record.is_empty() {
        tell(err, b"nothing is saved without --record");
        return;
    }
    if write_record(alloc, target, live, err, records, end).is_ok() {
        let name = target.command.record.as_bytes();
        tell_of(err, name, b": the record was written\n");
    }
}
