//! The program: a live session on a board with the program's devices.

ghost use Rattle.std.specs.Prelude.{◌≡◌, map};
ghost use Rattle.wind_outside.specs.Devices.{slots_of};
ghost use Rattle.wind_session.specs.Program.{opening_devices};
ghost use Rattle.live_session.specs.Command.{command_of as command_of_lem};
ghost use Rattle.live_session.specs.LiveAround.{live_around};
ghost use Rattle.live_session.specs.Promised.{IsPromised};
ghost use Rattle.live_session.specs.Session.{IsSession};
ghost use Rattle.live_session.specs.Status.{status_number};
ghost use Rattle.live_session.specs.declared.status.Status.{Status};

use crate::input::Input;
use crate::messages::tell_no_memory;
use crate::playing::play_live;
use crate::record_folder::RecordFolder;
use crate::status::Status;
use session_promises::promise_law;
use std::alloc::Global;
use wind_outside::{Device, Folder, Sink, Slots};
use wind_session::OpeningDevices;

// Plays a session on a board with the program's devices.
fn play_on<I: Input, F: Folder, O: Sink, E: Sink, D: RecordFolder>(
    alloc: Global,
    words: &[&str],
    input: &mut I,
    folder: &mut F,
    out: &mut O,
    err: &mut E,
    records: &mut D,
    devices: Slots,
) -> Status
    requires { slots_of kind_of words_of devices.items ≡ opening_devices }
    ensures { IsSession result (command_of_lem (map (λ w. w.now) words.now)) opening_devices
        (live_around ⟦<I as Input>⟧ ⟦<F as Folder>⟧ ⟦<O as Sink>⟧ ⟦<D as RecordFolder>⟧
        input.old folder.old out.old records.old)
        (live_around ⟦<I as Input>⟧ ⟦<F as Folder>⟧ ⟦<O as Sink>⟧ ⟦<D as RecordFolder>⟧
        input.new folder.new out.new records.new) }
{
    play_live(alloc, words, input, folder, out, err, records, devices)
}

/// Plays the session that the arguments ask for, with the lines of the input. The board has a latch,
/// a queue of bytes and a counter of events in slots 0, 1 and 2. Returns the exit status. At each
/// instant of the run that is left, the promises of `promise_law` hold.
pub fn live_program<I: Input, F: Folder, O: Sink, E: Sink, D: RecordFolder>(
    alloc: Global,
    words: &[&str],
    input: &mut I,
    folder: &mut F,
    out: &mut O,
    err: &mut E,
    records: &mut D,
) -> u8
    ensures session { (ended : Status) × (result ≡ status_number ended)
        × IsSession ended (command_of_lem (map (λ w. w.now) words.now)) opening_devices
        (live_around ⟦<I as Input>⟧ ⟦<F as Folder>⟧ ⟦<O as Sink>⟧ ⟦<D as RecordFolder>⟧
        input.old folder.old out.old records.old)
        (live_around ⟦<I as Input>⟧ ⟦<F as Folder>⟧ ⟦<O as Sink>⟧ ⟦<D as RecordFolder>⟧
        input.new folder.new out.new records.new) }
    ensures promises { IsPromised (command_of_lem (map (λ w. w.now) words.now)) opening_devices
        (live_around ⟦<I as Input>⟧ ⟦<F as Folder>⟧ ⟦<O as Sink>⟧ ⟦<D as RecordFolder>⟧
        input.old folder.old out.old records.old)
        (live_around ⟦<I as Input>⟧ ⟦<F as Folder>⟧ ⟦<O as Sink>⟧ ⟦<D as RecordFolder>⟧
        input.new folder.new out.new records.new) }
{
    promise_law();
    let Ok(devices) = OpeningDevices::new(alloc) else {
        tell_no_memory(err);
        return Status::NoMemory.number();
    };
    let mut slots = devices.slots;
    slots.push(Some(devices.latch)).unwrap();
    slots.push(Some(devices.fifo)).unwrap();
    slots.push(Some(devices.counter)).unwrap();
    play_on(alloc, words, input, folder, out, err, records, slots).number()
}
