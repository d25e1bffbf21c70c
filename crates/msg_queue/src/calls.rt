//! Sends and receives.

ghost use Rattle.std.specs.Prelude.{◌≡◌, ◌<◌, ◌^◌, Some, Ok};
ghost use Rattle.wind_core.specs.State.{KernState};
ghost use Rattle.msg_queue.specs.State.{scene};
ghost use Rattle.msg_queue.specs.Sends.{send_deed, send as send_lem, send_answer};
ghost use Rattle.msg_queue.specs.Receives.{receive_deed, receive as receive_lem, receive_answer};
ghost use Rattle.msg_queue.specs.Inside.{send_plan, receive_plan};
ghost use Rattle.msg_queue.specs.Kept.{IsKept, IsCaller};
ghost use Rattle.msg_queue.specs.declared.plans.ReceivePlan.TheVariants.{Taken};
ghost use Rattle.msg_queue.specs.declared.words.Got.TheVariants.{Count};

use crate::effects::hand_over;
use crate::plans::{ReceivePlan, SendPlan, plan_receive, plan_send};
use crate::queues::Queues;
use crate::words::{Got, Receiving, Sending};
use board_mem::Ram;
use id_table::sides::{OBJECT, SENDERS};
use id_table::{Ident, Place};
use wind_base::Errno;
use wind_core::{Kern, Took};

impl Queues {
    // What a send will do.
    fn plan_send(&self, kern: &Kern, ram: &Ram, id: u32, words: &Sending) -> SendPlan
        ensures { result ≡ send_plan id words.now (send_deed (scene kern.now self.now ram.now.bytes) id words.now) }
    {
        let Some(at) = self.find(id) else {
            return SendPlan::Declined(Errno::ObjIdError);
        };
        let first = self.first_asking(
            kern,
            Place {
                side: OBJECT,
                id: at,
            },
        );
        plan_send(self.queue(at), ram, at, words, first)
    }

    // What a receive will do.
    fn plan_receive(&self, ram: &Ram, id: u32, words: &Receiving) -> ReceivePlan
        ensures { (k : KernState) → result
            ≡ receive_plan id words.now (receive_deed (scene k self.now ram.now.bytes) id words.now) }
    {
        let Some(at) = self.find(id) else {
            return ReceivePlan::Denied(Errno::ObjIdError);
        };
        plan_receive(self.queue(at), ram, at, words)
    }

    /// Sends a message (VxWorks 5.4 Reference Manual, msgQSend). If a receiver waits, the first one
    /// gets the bytes, as many as it has room for. Otherwise they are added to the queue: an urgent
    /// message at the front, others at the back. If the queue is full, the caller waits for room.
    ///
    /// # Errors
    ///
    /// The first of these that applies; then nothing changes. `ObjIdError` if there is no such
    /// queue. `InvalidMsgLength` if the message is longer than the queue allows. `NonZeroTimeout`
    /// if an interrupt routine calls and the timeout isn't 0. `BadAddress` if a byte is outside
    /// RAM. `ObjUnavailable` if no receiver waits, the queue is full and the timeout is 0.
    pub fn send(
        &mut self,
        kern: &mut Kern,
        ram: &mut Ram,
        id: u32,
        words: Sending,
    ) -> Result<Took, Errno>
        requires kept { IsKept (scene kern.old self.old ram.old.bytes) }
        requires caller { IsCaller kern.old words.caller }
        requires since { kern.old.next_since < 2 ^ 62 }
        requires tick { kern.old.tick < 2 ^ 62 }
        ensures scene { scene kern.new self.new ram.new.bytes
            ≡ send_lem (scene kern.old self.old ram.old.bytes) id words }
        ensures answer { result ≡ send_answer (send_deed (scene kern.old self.old ram.old.bytes) id words) }
        ensures kept { IsKept (scene kern.new self.new ram.new.bytes) }
    {
        match self.plan_send(kern, ram, id, &words) {
            SendPlan::Declined(e) => Err(e),
            SendPlan::PassedOn(ask) => {
                hand_over(kern, ram, words.buffer, words.count, ask);
                Ok(Took::Taken)
            }
            SendPlan::Queued(at) => {
                self.put_message(ram, at, words.buffer, words.count, words.urgent);
                Ok(Took::Taken)
            }
            SendPlan::Blocked(ask, fifo) => {
                self.wait_for(kern, ask, fifo, words.timeout);
                Ok(Took::Pended)
            }
        }
    }

    // Takes the first message of a queue, and then adds the message of the first waiting sender, if
    // there is one. Returns the number of bytes copied.
    fn take_front(&mut self, kern: &mut Kern, ram: &mut Ram, id: Ident, words: &Receiving) -> u32
        requires kept { IsKept (scene kern.old self.old ram.old.bytes) }
        requires since { kern.old.next_since < 2 ^ 62 }
        requires taken { Taken id
            ≡ receive_plan id words.now (receive_deed (scene kern.old self.old ram.old.bytes) id words.now) }
        ensures scene { scene kern.new self.new ram.new.bytes
            ≡ receive_lem (scene kern.old self.old ram.old.bytes) id words.now }
        ensures answer { Ok (Count result)
            ≡ receive_answer words.now (receive_deed (scene kern.old self.old ram.old.bytes) id words.now) }
    {
        let count = self.copy_front(ram, id, words.buffer, words.room);
        self.drop_front(id);
        let sender = self.first_asking(kern, Place { side: SENDERS, id });
        self.refill(kern, ram, id, sender);
        count
    }

    /// Receives the first message (VxWorks 5.4 Reference Manual, msgQReceive). Copies as many of
    /// its bytes as there is room for, and returns their number. If a sender waits, the first one's
    /// bytes are then added to the queue, as they are in RAM at that moment, and its wait ends. If
    /// the queue is empty, the caller waits.
    ///
    /// # Errors
    ///
    /// The first of these that applies; then nothing changes. `ObjIdError` if there is no such
    /// queue. `BadAddress` if a byte of the room is outside RAM; only as much of the room counts as
    /// a message of this queue can fill. `ObjUnavailable` if the queue is empty and the timeout is
    /// 0.
    pub fn receive(
        &mut self,
        kern: &mut Kern,
        ram: &mut Ram,
        id: u32,
        words: Receiving,
    ) -> Result<Got, Errno>
        requires kept { IsKept (scene kern.old self.old ram.old.bytes) }
        requires caller { IsCaller kern.old (Some words.caller) }
        requires since { kern.old.next_since < 2 ^ 62 }
        requires tick { kern.old.tick < 2 ^ 62 }
        ensures scene { scene kern.new self.new ram.new.bytes
            ≡ receive_lem (scene kern.old self.old ram.old.bytes) id words }
        ensures answer { result ≡ receive_answer words (receive_deed (scene kern.old self.old ram.old.bytes) id words) }
        ensures kept { IsKept (scene kern.new self.new ram.new.bytes) }
    {
        match self.plan_receive(ram, id, &words) {
            ReceivePlan::Denied(e) => Err(e),
            ReceivePlan::Taken(at) => Ok(Got::Count(self.take_front(kern, ram, at, &words))),
            ReceivePlan::Starved(ask, fifo) => {
                self.wait_for(kern, ask, fifo, words.timeout);
                Ok(Got::Pended)
            }
        }
    }
}
