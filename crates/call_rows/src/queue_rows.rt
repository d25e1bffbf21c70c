//! The calls on message queues.

ghost use Rattle.std.specs.Prelude.{◌≡◌, ◌<◌, ◌^◌, ℕ, List, IfOk, OnErr};
ghost use Rattle.id_table.specs.Rows.{object_of};
ghost use Rattle.msg_queue.specs.{State.scene, Comings.count_of};
ghost use Rattle.call_rows.specs.SemRows.{IdsAreNew};
ghost use Rattle.call_rows.specs.QueueRows.{row_of, MayUseQueues, task_in as task_in_lem, sending, create_row, send_row, receive_row, delete_row, count_reply};

use board_mem::Ram;
use id_table::Ident;
use kernel_world::{Actor, DONE, Objects, Reply};
use msg_queue::{Got, MakeErr, Receiving, Sending};
use std::alloc::Global;
use wind_base::{Errno, NoMemory};
use wind_core::{Kern, Took};

// The message priority that puts a message at the head of the queue (VxWorks 5.4 Reference Manual,
// msgQSend: MSG_PRI_URGENT).
const URGENT: u32 = 1;

/// msgQCreate: makes a queue of at most `max_msgs` messages of at most `max_len` bytes. If memory
/// runs out, nothing changes.
pub fn create(
    alloc: Global,
    kern: &mut Kern,
    objects: &mut Objects,
    max_msgs: u32,
    max_len: u32,
    options: u32,
) -> Result<Reply, NoMemory>
    requires ids { IdsAreNew kern.old objects.old.queues.queues }
    ensures ok { IfOk result (λ r. (ram : List ℕ) → row_of (scene kern.new objects.new.queues ram) r
        ≡ create_row (scene kern.old objects.old.queues ram) max_msgs max_len options) }
    ensures rest { objects.new ≡ record objects.old { queues = objects.new.queues } }
    ensures err { OnErr result ((kern.new ≡ kern.old) × (objects.new ≡ objects.old)) }
{
    match objects
        .queues
        .create(alloc, kern, max_msgs, max_len, options)
    {
        Ok(id) => Ok(Reply::Answer(id.get())),
        Err(MakeErr::Refused(errno)) => Ok(Reply::Refusal(errno)),
        Err(MakeErr::NoMemory) => Err(NoMemory),
    }
}

// The caller, if it is a task.
fn task_in(who: Actor) -> Option<Ident>
    ensures { result ≡ task_in_lem who }
{
    match who {
        Actor::Task(who) => Some(who),
        Actor::Interrupt => None,
    }
}

/// What `msgQSend` asks for.
#[derive(Clone, Copy)]
pub struct SendWords {
    /// The address of the message.
    pub buffer: u32,
    /// The length of the message in bytes.
    pub count: u32,
    /// How many ticks the sender waits for room in the queue.
    pub timeout: u32,
    /// 1 puts the message at the head of the queue.
    pub priority: u32,
}

/// msgQSend: sends a message from RAM. A waiting receiver gets it, or it goes into the queue. If
/// the queue is full, the sender waits for room, with or without a timeout in ticks.
pub fn send(
    kern: &mut Kern,
    objects: &mut Objects,
    ram: &mut Ram,
    who: Actor,
    id: u32,
    words: SendWords,
) -> Reply
    requires may { MayUseQueues (scene kern.old objects.old.queues ram.old.bytes) who }
    ensures row { row_of (scene kern.new objects.new.queues ram.new.bytes) result
        ≡ send_row (scene kern.old objects.old.queues ram.old.bytes) id
        (sending who words.buffer words.count words.timeout words.priority) }
    ensures rest { objects.new ≡ record objects.old { queues = objects.new.queues } }
{
    let sending = Sending {
        caller: task_in(who),
        buffer: words.buffer,
        count: words.count,
        timeout: words.timeout,
        urgent: words.priority == URGENT,
    };
    match objects.queues.send(kern, ram, id, sending) {
        Ok(Took::Taken) => DONE,
        Ok(Took::Pended) => Reply::Later,
        Err(errno) => Reply::Refusal(errno),
    }
}

/// msgQReceive, from a task: puts the first message into RAM and answers its length in bytes, or
/// waits for a message. Refused at interrupt level.
pub fn receive(
    kern: &mut Kern,
    objects: &mut Objects,
    ram: &mut Ram,
    who: Actor,
    id: u32,
    words: ReceiveWords,
) -> Reply
    requires may { MayUseQueues (scene kern.old objects.old.queues ram.old.bytes) who }
    ensures row { row_of (scene kern.new objects.new.queues ram.new.bytes) result
        ≡ receive_row (scene kern.old objects.old.queues ram.old.bytes) who id words.buffer words.count words.timeout }
    ensures rest { objects.new ≡ record objects.old { queues = objects.new.queues } }
{
    let Actor::Task(caller) = who else {
        return Reply::Refusal(Errno::NotIsrCallable);
    };
    let receiving = Receiving {
        caller,
        buffer: words.buffer,
        room: words.count,
        timeout: words.timeout,
    };
    match objects.queues.receive(kern, ram, id, receiving) {
        Ok(Got::Count(count)) => Reply::Answer(count),
        Ok(Got::Pended) => Reply::Later,
        Err(errno) => Reply::Refusal(errno),
    }
}

/// What `msgQReceive` asks for.
#[derive(Clone, Copy)]
pub struct ReceiveWords {
    /// The address where the message goes.
    pub buffer: u32,
    /// The most bytes of it that go there.
    pub count: u32,
    /// How many ticks the task waits for a message.
    pub timeout: u32,
}

/// msgQDelete: deletes the queue; all tasks that wait for it go on. Refused if no such queue lives.
pub fn delete(kern: &mut Kern, objects: &mut Objects, id: u32) -> Reply
    requires since { kern.old.next_since < 2 ^ 62 }
    ensures row { (ram : List ℕ) → row_of (scene kern.new objects.new.queues ram) result
        ≡ delete_row (scene kern.old objects.old.queues ram) id }
    ensures rest { objects.new ≡ record objects.old { queues = objects.new.queues } }
{
    match objects.queues.delete(kern, id) {
        Ok(()) => DONE,
        Err(errno) => Reply::Refusal(errno),
    }
}

/// msgQNumMsgs: how many messages the queue holds. Refused if no such queue lives.
pub fn count(objects: &Objects, id: u32) -> Reply
    ensures { result ≡ count_reply (count_of (object_of objects.now.queues.queues id)) }
{
    match objects.queues.count(id) {
        Ok(count) => Reply::Answer(count),
        Err(errno) => Reply::Refusal(errno),
    }
}
