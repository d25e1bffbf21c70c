//! What happens in a step.

use crate::cause::Cause;
use board_changes::Change;
use id_table::Ident;
use kernel_world::{Actor, Call, Reply};
use source_text::Text;
use wind_base::Name;

/// What happens in a step.
#[derive(Drop)]
pub enum Happening {
    /// A tick occurs; this is its number.
    Tick {
        tick: u64,
    },
    /// Bytes of the console file arrive.
    Arrival {
        count: u64,
    },
    /// The device in a slot interrupts.
    Interrupt {
        slot: u32,
    },
    /// An interrupt of the device in a slot is delivered.
    Delivery {
        slot: u32,
    },
    /// Nobody runs, and time moves to this one.
    Jump {
        time: u64,
    },
    /// The shell's task is given the file with this name.
    File(Name),
    /// A task runs; another one ran before it, or none did.
    Runs {
        who: Ident,
        last: Option<Ident>,
    },
    /// A kernel call, and how its caller is answered.
    Called {
        who: Actor,
        call: Call,
        reply: Reply,
    },
    /// A task or routine causes an exception at this address.
    Exception {
        who: Actor,
        at: u32,
        cause: Cause,
    },
    /// The shell's line is aborted.
    Abort,
    /// A mutex gets an owner.
    Owned {
        mutex: u32,
        owner: u32,
    },
    /// A mutex loses its owner.
    Freed {
        mutex: u32,
        owner: u32,
    },
    /// A message is added to a queue.
    Queued {
        queue: u32,
        sender: Actor,
    },
    /// A message goes from its sender to a task that waits for one.
    HandedOver {
        queue: u32,
        sender: Actor,
        receiver: Ident,
    },
    /// A message is taken from a queue.
    Taken {
        queue: u32,
        receiver: Actor,
    },
    /// A task, a watchdog or a module changes.
    Changed(Change),
    /// An interrupt routine ends.
    RoutineEnds,
    /// An interrupt routine begins, at this address and with this parameter.
    RoutineBegins {
        entry: u32,
        param: u32,
    },
    /// The step writes these bytes; a task or routine makes it, or bytes of the console arrive.
    Writes {
        who: Option<Actor>,
        bytes: Text,
    },
    /// Consecutive instructions of one task or routine.
    Instructions {
        who: Actor,
        count: u64,
    },
}
