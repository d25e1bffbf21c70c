//! Messages that are queued, handed over or taken.

ghost use Rattle.std.specs.Prelude.{◌≡◌, ◌++◌, ◌∷◌, OnOk};
ghost use Rattle.board_trace.specs.Messages.{messages, messages_of, is_at as is_at_lem, sent_to, served_by as served_by_lem, served_in as served_in_lem, then_queued};
ghost use Rattle.board_trace.specs.declared.happening.Happening.TheVariants as told;

use crate::happening::Happening;
use crate::list::add;
use crate::moment::BeforeStep;
use board_changes::{Awaited, Change};
use id_table::Ident;
use kernel_world::{Actor, Call, Reply};
use wind_base::NoMemory;

/// A side of a message queue: the tasks that wait for a message, or those that wait for room.
#[derive(Clone, Copy)]
pub(crate) enum QueueSide {
    /// The tasks that wait for a message.
    Receivers,
    /// The tasks that wait for room.
    Senders,
}

// Whether a task that waits for this waits at this side of the queue.
fn is_at(object: Awaited, side: QueueSide, queue: u32) -> bool
    ensures { result ≡ is_at_lem object side queue }
{
    match object {
        Awaited::Receiving(id) => matches!(side, QueueSide::Receivers) && id.get() == queue,
        Awaited::Sending(id) => matches!(side, QueueSide::Senders) && id.get() == queue,
        Awaited::Semaphore(_) | Awaited::Mutex(_) | Awaited::Deletion(_) | Awaited::Console =>
            false,
    }
}

// The task, if this change is the end of its wait there with a result of its call.
fn served_by(change: &Change, side: QueueSide, queue: u32) -> Option<Ident>
    ensures { result ≡ served_by_lem change.now side queue }
{
    match *change {
        Change::Served { who, object, .. } if is_at(object, side, queue) => Some(who),
        _ => None,
    }
}

// The first task whose wait there ends with a result.
fn served_in(changes: &[Change], side: QueueSide, queue: u32) -> Option<Ident>
    ensures { result ≡ served_in_lem changes.now side queue }
{
    for change in changes {
        if let Some(who) = served_by(change, side, queue) {
            return Some(who);
        }
    }
    None
}

// Adds what became of a sent message: a task that waited for it has it, or it is queued.
fn add_sent(
    list: &mut Vec<Happening>,
    queue: u32,
    sender: Actor,
    receiver: Option<Ident>,
) -> Result<(), NoMemory>
    ensures { OnOk result (list.new.items ≡ list.old.items ++ sent_to sender queue receiver) }
{
    match receiver {
        Some(receiver) => add(
            list,
            Happening::HandedOver {
                queue,
                sender,
                receiver,
            },
        ),
        None => add(list, Happening::Queued { queue, sender }),
    }
}

// Adds that the message of a task that waited for room is queued.
fn add_queued(list: &mut Vec<Happening>, queue: u32, sender: Option<Ident>) -> Result<(), NoMemory>
    ensures { OnOk result (list.new.items ≡ list.old.items ++ then_queued queue sender) }
{
    match sender {
        Some(sender) => add(
            list,
            Happening::Queued {
                queue,
                sender: Actor::Task(sender),
            },
        ),
        None => Ok(()),
    }
}

// Adds that a message is taken; then that of a waiting sender is queued.
fn add_received(
    list: &mut Vec<Happening>,
    changes: &[Change],
    receiver: Actor,
    queue: u32,
) -> Result<(), NoMemory>
    ensures { OnOk result (list.new.items ≡ list.old.items
        ++ told.Taken queue receiver ∷ then_queued queue (served_in_lem changes.now QueueSide.Senders queue)) }
{
    add(list, Happening::Taken { queue, receiver })?;
    add_queued(list, queue, served_in(changes, QueueSide::Senders, queue))
}

// Adds what an accepted call does with messages.
fn add_messages_of(
    list: &mut Vec<Happening>,
    who: Actor,
    call: &Call,
    changes: &[Change],
) -> Result<(), NoMemory>
    ensures { OnOk result (list.new.items ≡ list.old.items ++ messages_of who call.now changes.now) }
{
    match *call {
        Call::MsgQSend { id, .. } => {
            add_sent(list, id, who, served_in(changes, QueueSide::Receivers, id))
        }
        Call::MsgQReceive { id, .. } => add_received(list, changes, who, id),
        _ => Ok(()),
    }
}

/// Adds what a step's call does with messages.
pub(crate) fn add_messages(
    list: &mut Vec<Happening>,
    before_step: &BeforeStep,
    reply: Option<Reply>,
    changes: &[Change],
) -> Result<(), NoMemory>
    ensures { OnOk result (list.new.items ≡ list.old.items ++ messages before_step.now reply changes.now) }
{
    match (before_step.actor, before_step.call, reply) {
        (Some(who), Some(call), Some(Reply::Answer(_))) => {
            add_messages_of(list, who, &call, changes)
        }
        _ => Ok(()),
    }
}
