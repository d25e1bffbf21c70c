//! What happens in a step as JSON.

ghost use Rattle.std.specs.Prelude.{◌≡◌, OnOk};
ghost use Rattle.trace_state.specs.Held.{members_in};
ghost use Rattle.trace_state.specs.Json.{with_all};
ghost use Rattle.trace_json.specs.Happenings.{cause_members, cause_word as cause_word_lem, event_members, event_word as event_word_lem, exception_members, handed_members, routine_members};

use crate::calls::add_called;
use crate::changes::{add_change, change_word};
use board_trace::{Cause, Happening};
use id_table::Ident;
use serde_json::Value;
use std::alloc::{AllocError, Global};
use trace_state::{Members, id_or_null};

/// The word for a happening.
pub(crate) fn event_word(happening: &Happening) -> &'static str
    ensures { result.now ≡ event_word_lem happening.now }
{
    match happening {
        Happening::Tick { .. } => "tick",
        Happening::Arrival { .. } => "bytes_arrive",
        Happening::Interrupt { .. } => "interrupt",
        Happening::Delivery { .. } => "delivery",
        Happening::Jump { .. } => "nobody_is_ready",
        Happening::File(_) => "asks_for_file",
        Happening::Runs { .. } => "runs",
        Happening::Called { .. } => "call",
        Happening::Exception { .. } => "exception",
        Happening::Abort => "aborts_line",
        Happening::Owned { .. } => "owns",
        Happening::Freed { .. } => "no_longer_owns",
        Happening::Queued { .. } => "adds_message",
        Happening::HandedOver { .. } => "hands_message",
        Happening::Taken { .. } => "takes_message",
        Happening::Changed(change) => change_word(change),
        Happening::RoutineEnds => "routine_ends",
        Happening::RoutineBegins { .. } => "routine_begins",
        Happening::Writes { .. } => "writes",
        Happening::Instructions { .. } => "instructions",
    }
}

// Adds a queue, and the task that a message is handed to.
fn add_handed(members: &mut Members, queue: u32, receiver: Ident) -> Result<(), AllocError>
    ensures { OnOk result (members_in members.new ≡ with_all (handed_members queue receiver) (members_in members.old)) }
{
    members.put_number("queue", u64::from(queue))?;
    members.put_number("receiver", u64::from(receiver.get()))
}

// Adds where a routine begins, and its parameter.
fn add_routine(members: &mut Members, entry: u32, param: u32) -> Result<(), AllocError>
    ensures { OnOk result (members_in members.new ≡ with_all (routine_members entry param) (members_in members.old)) }
{
    members.put_number("entry", u64::from(entry))?;
    members.put("parameter", Value::from(param.cast_signed()))
}

// The word for a cause.
fn cause_word(cause: Cause) -> &'static str
    ensures { result.now ≡ cause_word_lem cause }
{
    match cause {
        Cause::Access(_) => "access",
        Cause::Alignment(_) => "alignment",
        Cause::Illegal(_) => "illegal",
        Cause::Trap => "trap",
        Cause::SystemCall => "system_call",
    }
}

// Adds the data address or the word of a cause.
fn add_cause(members: &mut Members, cause: Cause) -> Result<(), AllocError>
    ensures { OnOk result (members_in members.new ≡ with_all (cause_members cause) (members_in members.old)) }
{
    match cause {
        Cause::Access(target) | Cause::Alignment(target) => {
            members.put_number("target", u64::from(target))
        }
        Cause::Illegal(word) => members.put_number("word", u64::from(word)),
        Cause::Trap | Cause::SystemCall => Ok(()),
    }
}

// Adds where an exception is caused, and which.
fn add_exception(members: &mut Members, at: u32, cause: Cause) -> Result<(), AllocError>
    ensures { OnOk result (members_in members.new ≡ with_all (exception_members at cause) (members_in members.old)) }
{
    members.put_number("at", u64::from(at))?;
    members.put_word("cause", cause_word(cause))?;
    add_cause(members, cause)
}

/// Adds what else is told of a happening.
pub(crate) fn add_happening(
    alloc: Global,
    members: &mut Members,
    happening: &Happening,
) -> Result<(), AllocError>
    ensures { OnOk result (members_in members.new ≡ with_all (event_members happening.now) (members_in members.old)) }
{
    match happening {
        Happening::Tick { tick } => members.put_number("tick", *tick),
        Happening::Interrupt { slot } | Happening::Delivery { slot } => {
            members.put_number("slot", u64::from(*slot))
        }
        Happening::Jump { time } => members.put_number("until", *time),
        Happening::File(name) => members.put_text("file", name.bytes()),
        Happening::Runs { last, .. } => members.put("in_place_of", id_or_null(*last)),
        Happening::Called { call, reply, .. } => add_called(alloc, members, call, reply),
        Happening::Exception { at, cause, .. } => add_exception(members, *at, *cause),
        Happening::Abort | Happening::RoutineEnds => Ok(()),
        Happening::Owned { mutex, .. } | Happening::Freed { mutex, .. } => {
            members.put_number("mutex", u64::from(*mutex))
        }
        Happening::Queued { queue, .. } | Happening::Taken { queue, .. } => {
            members.put_number("queue", u64::from(*queue))
        }
        Happening::HandedOver {
            queue,
            receiver,
            ..
        } => add_handed(members, *queue, *receiver),
        Happening::Changed(change) => add_change(alloc, members, change),
        Happening::RoutineBegins { entry, param } => add_routine(members, *entry, *param),
        Happening::Writes { bytes, .. } => members.put_text("bytes", bytes.bytes()),
        Happening::Arrival { count } | Happening::Instructions { count, .. } => {
            members.put_number("count", *count)
        }
    }
}
