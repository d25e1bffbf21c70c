//! One message queue.

ghost use Rattle.std.specs.Prelude.{◌≡◌, ◌<◌, ◌≤◌, [], length, drop, IfOk, IsTrue, vec_capacity, option_copied, ◌==◌, false, Some, None, if◌then◌else◌, ◌∷◌, ◌++◌};
ghost use Rattle.std.specs.List.{All};
ghost use Rattle.std.specs.VecDeque.{deque_len, deque_capacity};
ghost use Rattle.board_mem.specs.Memory.{has, bytes_at};
ghost use Rattle.id_table.specs.Sorting.{first};
ghost use Rattle.msg_queue.specs.State.{is_full as is_full_lem, added};

use crate::message::Message;
use board_mem::Ram;
use std::alloc::Global;
use std::collections::VecDeque;
use std::marker::Model;
use wind_base::NoMemory;

/// A queue, with room for all its messages.
#[derive(Drop)]
pub struct Queue {
    by_priority: bool,
    max_msgs: u32,
    max_len: u32,
    held: VecDeque<Message>,
    // empty messages, one for each that can still be added
    spare: Vec<Message>,
}

impl Model for Queue {
    ghost use Rattle.std.specs.Prelude.{◌≤◌, vec_capacity};
    ghost use Rattle.std.specs.VecDeque.{deque_capacity};
    ghost use Rattle.msg_queue.specs.State.{QueueState};
    ghost use Rattle.msg_queue.specs.Inside.{queue_in, IsStocked};

    ghost Value = { QueueState };

    ghost view = { λ q. queue_in q.by_priority q.max_msgs q.max_len q.held.items };

    ghost invariant = { λ q. IsStocked q.max_msgs q.max_len q.held.items q.spare.items
        × (q.max_msgs ≤ deque_capacity q.held) × (q.max_msgs ≤ vec_capacity q.spare) };
}

// Adds the message: an urgent one at the front, others at the back.
fn put_in(held: &mut VecDeque<Message>, message: Message, urgent: bool)
    requires { deque_len held.old < deque_capacity held.old }
    ensures items { held.new.items ≡ (if urgent then message ∷ held.old.items else held.old.items ++ message ∷ []) }
    ensures capacity { deque_capacity held.new ≡ deque_capacity held.old }
{
    if urgent {
        held.push_front_reserved(message);
    } else {
        held.push_back_reserved(message);
    }
}

// `n` empty messages, each with room for `room` bytes.
fn empty_messages(alloc: Global, n: u32, room: u32) -> Result<Vec<Message>, NoMemory>
    ensures count { IfOk result (λ v. length v.items ≡ n) }
    ensures capacity { IfOk result (λ v. n ≤ vec_capacity v) }
    ensures room { IfOk result (λ v. All (λ m. room ≤ m.room) v.items) }
{
    let mut messages = Vec::with_capacity(alloc, n as usize)?;
    for _i in 0..n {
        messages.push_reserved(Message::reserved(alloc, room)?);
    }
    Ok(messages)
}

impl Queue {
    // An empty queue, with room for all its messages.
    pub(crate) fn reserved(
        alloc: Global,
        max_msgs: u32,
        max_len: u32,
        by_priority: bool,
    ) -> Result<Queue, NoMemory>
        requires { 0 < max_msgs }
        ensures { IfOk result (λ q. q
            ≡ record { by_priority = by_priority; max_msgs = max_msgs; max_len = max_len; held = [] }) }
    {
        let held = VecDeque::with_capacity(alloc, max_msgs as usize)?;
        let spare = empty_messages(alloc, max_msgs, max_len)?;
        Ok(Queue {
            by_priority,
            max_msgs,
            max_len,
            held,
            spare,
        })
    }

    // Whether it holds as many messages as it can.
    pub(crate) fn is_full(&self) -> bool
        ensures { result ≡ is_full_lem self.now }
    {
        self.held.len() >= self.max_msgs as usize
    }

    // Whether it holds no messages.
    pub(crate) fn is_empty(&self) -> bool
        ensures { result ≡ (length self.now.held == 0) }
    {
        self.held.is_empty()
    }

    /// The number of its messages.
    pub fn count(&self) -> u32
        ensures { result ≡ length self.now.held }
    {
        let _most = self.max_msgs;
        self.held.len() as u32
    }

    /// The greatest length of its messages, in bytes.
    pub fn max_len(&self) -> u32
        ensures { result ≡ self.now.max_len }
    {
        self.max_len
    }

    /// Whether tasks wait by priority. If not, they wait in order of arrival.
    pub fn by_priority(&self) -> bool
        ensures { result ≡ self.now.by_priority }
    {
        self.by_priority
    }

    /// The greatest number of its messages.
    pub fn max_msgs(&self) -> u32
        ensures { result ≡ self.now.max_msgs }
    {
        self.max_msgs
    }

    // The bytes of the first message. None if the queue is empty.
    pub(crate) fn front(&self) -> Option<&[u8]>
        ensures { option_copied result ≡ first self.now.held }
    {
        match self.held.front() {
            Some(message) => Some(message.bytes()),
            None => None,
        }
    }

    // Adds a message, for which there must be room: the bytes in RAM from an address on.
    pub(crate) fn push(&mut self, ram: &Ram, addr: u32, n: u32, urgent: bool)
        requires room { is_full_lem self.old ≡ false }
        requires there { IsTrue (has ram.now.bytes addr n) }
        requires short { n ≤ self.old.max_len }
        ensures { self.new ≡ added urgent (bytes_at ram.now.bytes addr n) self.old }
    {
        let Some(mut message) = self.spare.pop() else {
            unreachable!()
        };
        message.fill(ram, addr, n);
        put_in(&mut self.held, message, urgent);
    }

    // Removes the first message.
    pub(crate) fn drop_front(&mut self)
        ensures { self.new ≡ record self.old { held = drop 1 self.old.held } }
    {
        if let Some(message) = self.held.pop_front() {
            self.spare.push_reserved(message);
        }
    }
}
