//! The program: a session on a board with the program's devices.

ghost use Rattle.std.specs.Prelude.{◌≡◌, codes, map};
ghost use Rattle.wind_outside.specs.Devices.{slots_of};
ghost use Rattle.wind_session.specs.Command.{command_of as command_of_lem};
ghost use Rattle.wind_session.specs.Keeping.{around, messages};
ghost use Rattle.wind_session.specs.Program.{Ends, Session, opening_devices};
ghost use Rattle.wind_session.specs.Texts.{Tells};
ghost use Rattle.session_promises.specs.Sessions.{Promised};

use crate::laws::promise_law;
use std::alloc::Global;
use wind_outside::{Device, Folder, Sink, Slots};
use wind_session::{OpeningDevices, PROGRAM, Status, play, tell_no_memory};

// Plays a session on a board with the program's devices.
fn play_on<F: Folder, O: Sink, E: Sink>(
    alloc: Global,
    words: &[&str],
    folder: &mut F,
    out: &mut O,
    err: &mut E,
    devices: Slots,
) -> Status
    requires devices { slots_of kind_of words_of devices.items ≡ opening_devices }
    ensures session { Session result (command_of_lem (map (λ w. w.now) words.now))
        (around ⟦<F as Folder>⟧ ⟦<O as Sink>⟧ folder.old out.old)
        (around ⟦<F as Folder>⟧ ⟦<O as Sink>⟧ folder.new out.new) }
    ensures tells { Tells (codes "windplay") result (command_of_lem (map (λ w. w.now) words.now))
        (messages ⟦<E as Sink>⟧ err.old) (messages ⟦<E as Sink>⟧ err.new) }
{
    play(alloc, words, folder, out, err, devices).status
}

/// Plays the session that the arguments ask for. The board has a latch, a queue of bytes and a
/// counter of events in slots 0, 1 and 2. Returns the exit status. At each instant of the run that
/// is left, the promises of `promise_law` hold.
pub fn play_program<F: Folder, O: Sink, E: Sink>(
    alloc: Global,
    words: &[&str],
    folder: &mut F,
    out: &mut O,
    err: &mut E,
) -> u8
    ensures ends { Ends result (command_of_lem (map (λ w. w.now) words.now))
        (around ⟦<F as Folder>⟧ ⟦<O as Sink>⟧ folder.old out.old)
        (around ⟦<F as Folder>⟧ ⟦<O as Sink>⟧ folder.new out.new)
        (messages ⟦<E as Sink>⟧ err.old) (messages ⟦<E as Sink>⟧ err.new) }
    ensures promises { Promised result (command_of_lem (map (λ w. w.now) words.now))
        (around ⟦<F as Folder>⟧ ⟦<O as Sink>⟧ folder.old out.old)
        (around ⟦<F as Folder>⟧ ⟦<O as Sink>⟧ folder.new out.new) }
{
    promise_law();
    let Ok(devices) = OpeningDevices::new(alloc) else {
        tell_no_memory(PROGRAM, err);
        return Status::NoMemory.number();
    };
    let mut slots = devices.slots;
    slots.push(Some(devices.latch)).unwrap();
    slots.push(Some(devices.fifo)).unwrap();
    slots.push(Some(devices.counter)).unwrap();
    play_on(alloc, words, folder, out, err, slots).number()
}
