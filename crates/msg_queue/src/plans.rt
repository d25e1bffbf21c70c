//! What a call will do.

ghost use Rattle.std.specs.Prelude.{◌≡◌, length, Option, Some};
ghost use Rattle.msg_queue.specs.Sends.{send_refusal as send_refusal_lem, sends_at, queued_or_blocked as queued_or_blocked_lem, send_ask as send_ask_lem};
ghost use Rattle.msg_queue.specs.Receives.{receive_refusal as receive_refusal_lem, receives_at, receive_ask as receive_ask_lem};
ghost use Rattle.msg_queue.specs.Inside.{send_plan, receive_plan};

use crate::asks::Ask;
use crate::queue::Queue;
use crate::words::{Receiving, Sending};
use board_mem::Ram;
use id_table::sides::{OBJECT, SENDERS};
use id_table::{Ident, Place};
use wind_base::Errno;
use wind_base::words::NO_WAIT;

// What a send will do.
#[derive(Clone, Copy)]
pub(crate) enum SendPlan {
    Declined(Errno),
    // the first waiting receiver, whose request this is, gets the bytes
    PassedOn(Ask),
    // the bytes are added to this queue
    Queued(Ident),
    // the caller waits for room with this request; if the flag is set, in order of arrival
    Blocked(Ask, bool),
}

// What a receive will do.
#[derive(Clone, Copy)]
pub(crate) enum ReceivePlan {
    Denied(Errno),
    // the first message is taken from this queue
    Taken(Ident),
    // the caller waits for a message with this request; if the flag is set, in order of arrival
    Starved(Ask, bool),
}

// Why a send to a queue is refused. `stuck` says that it can't be done at once.
fn send_refusal(queue: &Queue, ram: &Ram, words: &Sending, stuck: bool) -> Option<Errno>
    ensures { result ≡ send_refusal_lem (length ram.now.bytes) words.now stuck queue.now }
{
    if words.count > queue.max_len() {
        return Some(Errno::InvalidMsgLength);
    }
    if words.caller.is_none() && words.timeout != NO_WAIT {
        return Some(Errno::NonZeroTimeout);
    }
    if !ram.has(words.buffer, words.count) {
        return Some(Errno::BadAddress);
    }
    if stuck && words.timeout == NO_WAIT {
        return Some(Errno::ObjUnavailable);
    }
    None
}

// The request of a sender that waits.
fn send_ask(at: Ident, who: Ident, words: &Sending) -> Ask
    ensures { result ≡ send_ask_lem at who words.now }
{
    Ask {
        who,
        place: Place {
            side: SENDERS,
            id: at,
        },
        buffer: words.buffer,
        count: words.count,
        urgent: words.urgent,
    }
}

// The request of a receiver that waits.
fn receive_ask(at: Ident, words: &Receiving) -> Ask
    ensures { result ≡ receive_ask_lem at words.now }
{
    Ask {
        who: words.caller,
        place: Place {
            side: OBJECT,
            id: at,
        },
        buffer: words.buffer,
        count: words.room,
        urgent: false,
    }
}

// What a send will do if no receiver waits: the bytes are added, or the caller waits.
fn queued_or_blocked(queue: &Queue, at: Ident, words: &Sending) -> SendPlan
    ensures { result ≡ send_plan at words.now (queued_or_blocked_lem queue.now words.now.caller) }
{
    match words.caller {
        Some(who) if queue.is_full() => {
            SendPlan::Blocked(send_ask(at, who, words), !queue.by_priority())
        }
        _ => SendPlan::Queued(at),
    }
}

// What a send to a queue will do; the request is that of the first waiting receiver.
pub(crate) fn plan_send(
    queue: &Queue,
    ram: &Ram,
    at: Ident,
    words: &Sending,
    first: Option<Ask>,
) -> SendPlan
    ensures { result ≡ send_plan at words.now (sends_at (length ram.now.bytes) words.now first (Some queue.now)) }
{
    let stuck = first.is_none() && queue.is_full();
    if let Some(e) = send_refusal(queue, ram, words, stuck) {
        return SendPlan::Declined(e);
    }
    match first {
        Some(ask) => SendPlan::PassedOn(ask),
        None => queued_or_blocked(queue, at, words),
    }
}

// Why a receive from a queue is refused.
fn receive_refusal(queue: &Queue, ram: &Ram, words: &Receiving) -> Option<Errno>
    ensures { result ≡ receive_refusal_lem (length ram.now.bytes) words.now queue.now }
{
    if !ram.has(words.buffer, words.room.min(queue.max_len())) {
        return Some(Errno::BadAddress);
    }
    if queue.is_empty() && words.timeout == NO_WAIT {
        return Some(Errno::ObjUnavailable);
    }
    None
}

// What a receive from a queue will do.
pub(crate) fn plan_receive(queue: &Queue, ram: &Ram, at: Ident, words: &Receiving) -> ReceivePlan
    ensures { result ≡ receive_plan at words.now (receives_at (length ram.now.bytes) words.now (Some queue.now)) }
{
    if let Some(e) = receive_refusal(queue, ram, words) {
        return ReceivePlan::Denied(e);
    }
    if queue.is_empty() {
        ReceivePlan::Starved(receive_ask(at, words), !queue.by_priority())
    } else {
        ReceivePlan::Taken(at)
    }
}
