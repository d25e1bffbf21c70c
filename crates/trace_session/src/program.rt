//! The program: a traced session on a board with the program's devices.

ghost use Rattle.std.specs.Prelude.{◌≡◌, codes, map};
ghost use Rattle.wind_outside.specs.Devices.{slots_of};
ghost use Rattle.wind_session.specs.Keeping.{around, messages};
ghost use Rattle.wind_session.specs.Program.{opening_devices};
ghost use Rattle.wind_session.specs.Texts.{Tells};
ghost use Rattle.session_promises.specs.Sessions.{Promised};
ghost use Rattle.trace_session.specs.Command.{command_of, session_of};
ghost use Rattle.trace_session.specs.Program.{Ends, Session};

use crate::command::PROGRAM;
use crate::playing::trace;
use session_promises::promise_law;
use std::alloc::Global;
use wind_outside::{Device, Folder, Sink, Slots};
use wind_session::{OpeningDevices, Status, tell_no_memory};

// Plays a session for a trace, on a board with the program's devices.
fn trace_on<F: Folder, O: Sink, E: Sink>(
    alloc: Global,
    words: &[&str],
    folder: &mut F,
    out: &mut O,
    err: &mut E,
    devices: Slots,
) -> Status
    requires { slots_of kind_of words_of devices.items ≡ opening_devices }
    ensures session { Session result (command_of (map (λ w. w.now) words.now))
        (around ⟦<F as Folder>⟧ ⟦<O as Sink>⟧ folder.old out.old)
        (around ⟦<F as Folder>⟧ ⟦<O as Sink>⟧ folder.new out.new) }
    ensures tells { Tells (codes "windtrace") result (session_of (command_of (map (λ w. w.now) words.now)))
        (messages ⟦<E as Sink>⟧ err.old) (messages ⟦<E as Sink>⟧ err.new) }
{
    trace(alloc, words, folder, out, err, devices).status
}

/// Plays the session that the arguments ask for, and puts what happened. The board has a latch, a
/// queue of bytes and a counter of events in slots 0, 1 and 2. Returns the exit status. At each
/// instant of the run that is left, the promises of `promise_law` hold.
pub fn trace_program<F: Folder, O: Sink, E: Sink>(
    alloc: Global,
    words: &[&str],
    folder: &mut F,
    out: &mut O,
    err: &mut E,
) -> u8
    ensures ends { Ends result (command_of (map (λ w. w.now) words.now))
        (around ⟦<F as Folder>⟧ ⟦<O as Sink>⟧ folder.old out.old)
        (around ⟦<F as Folder>⟧ ⟦<O as Sink>⟧ folder.new out.new)
        (messages ⟦<E as Sink>⟧ err.old) (messages ⟦<E as Sink>⟧ err.new) }
    ensures promises { Promised result (session_of (command_of (map (λ w. w.now) words.now)))
        (around ⟦<F as Folder>⟧ ⟦<O as Sink>⟧ folder.old out.old)
        (around ⟦<F as Folder>⟧ ⟦<O as Sink>⟧ folder.new out.new) }
{
    promise_law();
    let Ok(devices) = OpeningDevices::new(alloc) else {
        tell_no_memory(PROGRAM, err);
        return Status::NoMemory.number();
    };
    let mut slots = devices.slots;
    slots.push(Some(devices.latch)).unwrap();
    slots.push(Some(devices.fifo)).unwrap();
    slots.push(Some(devices.counter)).unwrap();
    trace_on(alloc, words, folder, out, err, slots).number()
}
