//! Plays a live session.

ghost use Rattle.std.specs.Prelude.{◌≡◌, ◌≢◌, ◌⊎◌, ◌≤◌, List, [], Option, Some, true, IfOk, IfErr, OnOk, length, map};
ghost use Rattle.wind_base.specs.Limits.{longest_text_file, most_slots, most_steps};
ghost use Rattle.wind_outside.specs.Counts.{Rose};
ghost use Rattle.wind_outside.specs.Devices.{DeviceState, slots_of};
ghost use Rattle.wind_session.specs.Keeping.{KeepsFiles};
ghost use Rattle.live_session.specs.Command.{command_of as command_of_lem};
ghost use Rattle.live_session.specs.Continuing.{Kept, TakesOver};
ghost use Rattle.live_session.specs.Cutting.{IsTextOf};
ghost use Rattle.live_session.specs.LiveAround.{KeepsLive, live_around};
ghost use Rattle.live_session.specs.Seen.{live_seen, BeginsWith, IsSound};
ghost use Rattle.live_session.specs.Session.{IsSession, Leaves, setup_of, status_unless};
ghost use Rattle.live_session.specs.Words.{command_state, kept_of, IsTarget};
ghost use Rattle.live_session.specs.declared.status.Status.TheVariants as status;

use crate::command::{Command, command_of};
use crate::continuing::{Taken, first_steps, taken_of};
use crate::conversation::converse;
use crate::input::Input;
use crate::keeping::{may_record, open_record, write_record};
use crate::live::Live;
use crate::messages::{tell, tell_no_memory, tell_of};
use crate::reading::Texts;
use crate::record::record_of;
use crate::record_folder::RecordFolder;
use crate::saving::{Target, Unsaved, paths_of};
use crate::status::Status;
use std::alloc::Global;
use tick_file::{read_ticks, writing_law};
use wind_base::NoMemory;
use wind_outside::{Device, Folder, Sink, Slots};
use wind_session::{Board, CommandErr, tell_usage};

// Says why a session ended before its record was written at its end.
fn tell_status<E: Sink>(err: &mut E, target: Target, status: Status) {
    let name = target.command.record.as_bytes();
    match status {
        Status::Ended | Status::Usage => {}
        Status::Unrecorded => tell_of(err, name, b": the record was not written\n"),
        Status::ReadFault => tell(err, b"reading failed"),
        Status::WriteFault => tell(err, b"writing failed"),
        Status::NoMemory => tell_no_memory(err),
    }
}

// The status of a session after its record was written, or not.
fn status_after(status: Status, written: Result<(), Unsaved>) -> Status
    ensures ok { OnOk written (result ≡ status) }
    ensures err { IfErr written (λ failure. result ≡ status_unless failure status) }
{
    match (status, written) {
        (Status::Ended, Err(Unsaved::Failed)) => Status::Unrecorded,
        (Status::Ended, Err(Unsaved::NoMemory)) => Status::NoMemory,
        _ => status,
    }
}

// A board with these texts as its record, before its first step.
fn boot(alloc: Global, command: &Command, devices: Slots, texts: Texts) -> Result<Live, NoMemory>
    requires devices { length devices.items ≤ most_slots }
    requires console { length texts.console.items ≤ longest_text_file }
    requires ticks { length texts.ticks.items ≤ longest_text_file }
    requires texts { IsTextOf texts.console.items texts.ticks.items texts.lines texts.last }
    ensures begins { IfOk result (λ live. BeginsWith
        (setup_of (command_state command.now) (slots_of kind_of words_of devices.items))
        texts.console.items texts.ticks.items (live_seen ⟦<dyn Device as Device>⟧ live)) }
{
    writing_law();
    let record = record_of(alloc, &texts)?;
    let Ok(schedule) = read_ticks(alloc, &texts.ticks) else {
        return Err(NoMemory);
    };
    let console = texts.console;
    let Command { profile, board, .. } = *command;
    match Board::boot(alloc, devices, console, schedule, profile, board) {
        Ok(board) => Ok(Live { board, record }),
        Err(_) => Err(NoMemory),
    }
}

// Plays a session that begins with this limit of its record, and writes the record at its end.
fn play_begun<I: Input, F: Folder, O: Sink, E: Sink, D: RecordFolder>(
    alloc: Global,
    target: Target,
    live: &mut Live,
    input: &mut I,
    folder: &mut F,
    out: &mut O,
    err: &mut E,
    records: &mut D,
    limit: u64,
) -> Status
    requires target { IsTarget target }
    requires few { limit ≤ most_steps }
    requires sound { IsSound (live_seen ⟦<dyn Device as Device>⟧ live.old) }
    ensures leaves { (devices : List (Option DeviceState)) (kept : Kept) → kept.limit ≡ limit
        → TakesOver target.entry.command.now.continues (command_state target.entry.command.now) kept (D.files records.old)
        → BeginsWith (setup_of (command_state target.entry.command.now) devices) kept.console kept.ticks
        (live_seen ⟦<dyn Device as Device>⟧ live.old)
        → Leaves result (Some (command_state target.entry.command.now)) devices
        (live_around ⟦<I as Input>⟧ ⟦<F as Folder>⟧ ⟦<O as Sink>⟧ ⟦<D as RecordFolder>⟧
        input.old folder.old out.old records.old)
        (live_around ⟦<I as Input>⟧ ⟦<F as Folder>⟧ ⟦<O as Sink>⟧ ⟦<D as RecordFolder>⟧
        input.new folder.new out.new records.new) }
    ensures read_fault { result ≡ status.ReadFault
        → Rose (I.faults input.old) (I.faults input.new) ⊎ Rose (F.faults folder.old) (F.faults folder.new) }
    ensures fault { result ≡ status.WriteFault → Rose (O.faults out.old) (O.faults out.new) }
    ensures known { result ≢ status.Usage }
    ensures keeps { KeepsFiles ⟦<F as Folder>⟧ ⟦<O as Sink>⟧ folder.old out.old folder.new out.new }
    ensures input_faults { I.faults input.old ≤ I.faults input.new }
    ensures record_faults { D.faults records.old ≤ D.faults records.new }
{
    if !may_record(err, records, target) {
        return Status::Unrecorded;
    }
    if let Err(failure) = open_record(alloc, target, live, err, records, limit) {
        return status_after(Status::Ended, Err(failure));
    }
    writing_law();
    let first = first_steps(target.command, limit);
    let closing = converse(alloc, target, live, input, folder, out, err, records, first);
    tell_status(err, target, closing.status);
    if target.command.record.is_empty() {
        return closing.status;
    }
    if closing.unsaved.is_some() {
        return closing.status;
    }
    let written = write_record(alloc, target, live, err, records, closing.end);
    status_after(closing.status, written)
}

// Plays the session of a command that takes this over, on a board with these devices.
fn play_taken<I: Input, F: Folder, O: Sink, E: Sink, D: RecordFolder>(
    alloc: Global,
    target: Target,
    devices: Slots,
    input: &mut I,
    folder: &mut F,
    out: &mut O,
    err: &mut E,
    records: &mut D,
    taken: Taken,
) -> Status
    requires devices { length devices.items ≤ most_slots }
    requires target { IsTarget target }
    requires takes { TakesOver target.command.now.continues (command_state target.command.now) (kept_of taken)
        (D.files records.old) }
    requires texts { IsTextOf taken.texts.console.items taken.texts.ticks.items taken.texts.lines taken.texts.last }
    requires console { length taken.texts.console.items ≤ longest_text_file }
    requires ticks { length taken.texts.ticks.items ≤ longest_text_file }
    requires few { taken.limit ≤ most_steps }
    ensures leaves { Leaves result (Some (command_state target.entry.command.now))
        (slots_of kind_of words_of devices.items)
        (live_around ⟦<I as Input>⟧ ⟦<F as Folder>⟧ ⟦<O as Sink>⟧ ⟦<D as RecordFolder>⟧
        input.old folder.old out.old records.old)
        (live_around ⟦<I as Input>⟧ ⟦<F as Folder>⟧ ⟦<O as Sink>⟧ ⟦<D as RecordFolder>⟧
        input.new folder.new out.new records.new) }
    ensures read_fault { result ≡ status.ReadFault
        → Rose (I.faults input.old) (I.faults input.new) ⊎ Rose (F.faults folder.old) (F.faults folder.new) }
    ensures fault { result ≡ status.WriteFault → Rose (O.faults out.old) (O.faults out.new) }
    ensures known { result ≢ status.Usage }
    ensures keeps { KeepsFiles ⟦<F as Folder>⟧ ⟦<O as Sink>⟧ folder.old out.old folder.new out.new }
    ensures input_faults { I.faults input.old ≤ I.faults input.new }
    ensures record_faults { D.faults records.old ≤ D.faults records.new }
{
    let limit = taken.limit;
    let Ok(mut live) = boot(alloc, target.command, devices, taken.texts) else {
        tell_no_memory(err);
        return Status::NoMemory;
    };
    play_begun(
        alloc, target, &mut live, input, folder, out, err, records, limit,
    )
}

// Plays the session of a command on a board with these devices.
fn session<I: Input, F: Folder, O: Sink, E: Sink, D: RecordFolder>(
    alloc: Global,
    target: Target,
    devices: Slots,
    input: &mut I,
    folder: &mut F,
    out: &mut O,
    err: &mut E,
    records: &mut D,
) -> Status
    requires devices { length devices.items ≤ most_slots }
    requires target { IsTarget target }
    requires named { target.command.now.continues ≡ true → target.command.now.record.now ≢ [] }
    ensures leaves { Leaves result (Some (command_state target.entry.command.now))
        (slots_of kind_of words_of devices.items)
        (live_around ⟦<I as Input>⟧ ⟦<F as Folder>⟧ ⟦<O as Sink>⟧ ⟦<D as RecordFolder>⟧
        input.old folder.old out.old records.old)
        (live_around ⟦<I as Input>⟧ ⟦<F as Folder>⟧ ⟦<O as Sink>⟧ ⟦<D as RecordFolder>⟧
        input.new folder.new out.new records.new) }
    ensures read_fault { result ≡ status.ReadFault
        → Rose (I.faults input.old) (I.faults input.new) ⊎ Rose (F.faults folder.old) (F.faults folder.new) }
    ensures fault { result ≡ status.WriteFault → Rose (O.faults out.old) (O.faults out.new) }
    ensures known { result ≢ status.Usage }
    ensures keeps { KeepsFiles ⟦<F as Folder>⟧ ⟦<O as Sink>⟧ folder.old out.old folder.new out.new }
    ensures input_faults { I.faults input.old ≤ I.faults input.new }
    ensures record_faults { D.faults records.old ≤ D.faults records.new }
{
    match taken_of(alloc, target, err, records) {
        Ok(taken) => play_taken(
            alloc, target, devices, input, folder, out, err, records, taken,
        ),
        Err(failure) => status_after(Status::Ended, Err(failure)),
    }
}

/// Plays the session that the arguments ask for, with the lines of the input, on a board with these
/// devices. If a record is asked for, one that is there stays unless the arguments say that it is
/// set aside; then nothing is played. Nothing is played either if its folder can't be made or its
/// files can't be written. The record is written at the end.
pub fn play_live<'a, I: Input, F: Folder, O: Sink, E: Sink, D: RecordFolder>(
    alloc: Global,
    words: &'a [&'a str],
    input: &mut I,
    folder: &mut F,
    out: &mut O,
    err: &mut E,
    records: &mut D,
    devices: Slots,
) -> Status
    requires { length devices.items ≤ most_slots }
    ensures session { IsSession result (command_of_lem (map (λ w. w.now) words.now))
        (slots_of kind_of words_of devices.items)
        (live_around ⟦<I as Input>⟧ ⟦<F as Folder>⟧ ⟦<O as Sink>⟧ ⟦<D as RecordFolder>⟧
        input.old folder.old out.old records.old)
        (live_around ⟦<I as Input>⟧ ⟦<F as Folder>⟧ ⟦<O as Sink>⟧ ⟦<D as RecordFolder>⟧
        input.new folder.new out.new records.new) }
    ensures keeps { KeepsLive
        (live_around ⟦<I as Input>⟧ ⟦<F as Folder>⟧ ⟦<O as Sink>⟧ ⟦<D as RecordFolder>⟧
        input.old folder.old out.old records.old)
        (live_around ⟦<I as Input>⟧ ⟦<F as Folder>⟧ ⟦<O as Sink>⟧ ⟦<D as RecordFolder>⟧
        input.new folder.new out.new records.new) }
{
    let command = match command_of(alloc, words) {
        Ok(command) => command,
        Err(CommandErr::Usage(text)) => {
            tell_usage(err, &text);
            return Status::Usage;
        }
        Err(CommandErr::NoMemory) => {
            tell_no_memory(err);
            return Status::NoMemory;
        }
    };
    let Ok(paths) = paths_of(alloc, command.record) else {
        tell_no_memory(err);
        return Status::NoMemory;
    };
    let target = Target {
        command: &command,
        paths: &paths,
    };
    session(alloc, target, devices, input, folder, out, err, records)
}
