//! The changes that a call makes.

ghost use Rattle.std.specs.Prelude.{◌≡◌, ◌<◌, ◌≤◌, ◌+◌, ◌^◌, Some, None, IsSome, IfSome, IsTrue, ℕ, List, ◌∷◌, Option, length, min, take, drop, false};
ghost use Rattle.std.specs.List.{All, filter};
ghost use Rattle.wind_base.specs.Limits.{most_tasks};
ghost use Rattle.id_table.specs.Rows.{object_of, with_object};
ghost use Rattle.board_mem.specs.Memory.{has, with_bytes, bytes_at};
ghost use Rattle.wind_core.specs.State.{Lives};
ghost use Rattle.wind_core.specs.Moves.{pend, end_wait};
ghost use Rattle.msg_queue.specs.State.{QueueState, scene, added, is_full, with_new_ask, counts};
ghost use Rattle.msg_queue.specs.Receives.{refilled};

use crate::asks::{Ask, add_ask};
use crate::queues::Queues;
use board_mem::Ram;
use id_table::Ident;
use wind_base::words::OK;
use wind_core::Kern;

// Copies the bytes of a send to a waiting receiver: as many as it has room for. Its wait ends with
// their number as the result.
pub(crate) fn hand_over(kern: &mut Kern, ram: &mut Ram, buffer: u32, count: u32, ask: Ask)
    requires live { Lives kern.old ask.who }
    requires since { kern.old.next_since + 1 < 2 ^ 64 }
    requires source { IsTrue (has ram.old.bytes buffer count) }
    requires place { IsTrue (has ram.old.bytes ask.buffer (min count ask.count)) }
    ensures kern { kern.new ≡ end_wait kern.old ask.who (min count ask.count) None }
    ensures ram { ram.new.bytes
        ≡ with_bytes ram.old.bytes ask.buffer (take ask.count (bytes_at ram.old.bytes buffer count)) }
{
    let n = count.min(ask.count);
    ram.move_bytes(buffer, ask.buffer, n);
    kern.end_wait(ask.who, n, None);
}

impl Queues {
    // Adds the bytes from an address on to a queue.
    pub(crate) fn put_message(
        &mut self,
        ram: &Ram,
        id: Ident,
        buffer: u32,
        count: u32,
        urgent: bool,
    )
        requires live { IsSome (object_of self.old.queues id) }
        requires there { IsTrue (has ram.now.bytes buffer count) }
        requires room { (q : QueueState) → object_of self.old.queues id ≡ Some q → is_full q ≡ false }
        requires short { (q : QueueState) → object_of self.old.queues id ≡ Some q → count ≤ q.max_len }
        ensures { (q : QueueState) → object_of self.old.queues id ≡ Some q → self.new ≡ record self.old {
          queues = with_object self.old.queues id (added urgent (bytes_at ram.now.bytes buffer count) q);
        } }
    {
        self.queues.object_mut(id).push(ram, buffer, count, urgent);
    }

    // Removes the first message of a queue.
    pub(crate) fn drop_front(&mut self, id: Ident)
        requires live { IsSome (object_of self.old.queues id) }
        ensures { (q : QueueState) → object_of self.old.queues id ≡ Some q → self.new ≡ record self.old {
          queues = with_object self.old.queues id (record q { held = drop 1 q.held });
        } }
    {
        self.queues.object_mut(id).drop_front();
    }

    // Begins the caller's wait, with this request.
    pub(crate) fn wait_for(&mut self, kern: &mut Kern, ask: Ask, fifo: bool, timeout: u32)
        requires live { Lives kern.old ask.who }
        requires room { length (filter (counts kern.old) self.old.asks) < most_tasks }
        requires timeout { 0 < timeout }
        requires since { kern.old.next_since + 1 < 2 ^ 64 }
        requires tick { kern.old.tick < 2 ^ 63 }
        ensures asks { self.new ≡ record self.old { asks = with_new_ask kern.old self.old.asks ask } }
        ensures kern { kern.new ≡ pend kern.old ask.who ask.place fifo timeout }
    {
        let Ask { who, place, .. } = ask;
        add_ask(&mut self.asks, kern, ask);
        kern.pend(who, place, fifo, timeout);
    }

    // Copies the first message's bytes to an address, as many as there is room for, and returns
    // their number.
    pub(crate) fn copy_front(&self, ram: &mut Ram, id: Ident, buffer: u32, room: u32) -> u32
        requires live { IsSome (object_of self.now.queues id) }
        requires there { (q : QueueState) → object_of self.now.queues id ≡ Some q
            → IsTrue (has ram.old.bytes buffer (min room q.max_len)) }
        requires short { (q : QueueState) → object_of self.now.queues id ≡ Some q
            → All (λ m. length m ≤ q.max_len) q.held }
        ensures count { (q : QueueState) (m : List ℕ) (rest : List (List ℕ)) → object_of self.now.queues id ≡ Some q
            → q.held ≡ m ∷ rest → result ≡ min (length m) room }
        ensures ram { (q : QueueState) (m : List ℕ) (rest : List (List ℕ)) → object_of self.now.queues id ≡ Some q
            → q.held ≡ m ∷ rest → ram.new.bytes ≡ with_bytes ram.old.bytes buffer (take room m) }
    {
        let Some(bytes) = self.queue(id).front() else {
            return 0;
        };
        let n = bytes.len().min(room as usize);
        let Ok(()) = ram.copy_in(buffer, &bytes[..n]) else {
            unreachable!()
        };
        n as u32
    }

    // Adds the bytes of the waiting sender to the queue, if there is a sender, and ends its wait.
    pub(crate) fn refill(&mut self, kern: &mut Kern, ram: &Ram, id: Ident, sender: Option<Ask>)
        requires live { IsSome (object_of self.old.queues id) }
        requires lives { IfSome sender (λ a. Lives kern.old a.who) }
        requires since { kern.old.next_since + 1 < 2 ^ 64 }
        requires there { IfSome sender (λ a. IsTrue (has ram.now.bytes a.buffer a.count)) }
        requires room { IfSome sender (λ a. (q : QueueState) → object_of self.old.queues id ≡ Some q
            → is_full q ≡ false) }
        requires short { IfSome sender (λ a. (q : QueueState) → object_of self.old.queues id ≡ Some q
            → a.count ≤ q.max_len) }
        ensures { (q : QueueState) → object_of self.old.queues id ≡ Some q
            → scene kern.new self.new ram.now.bytes ≡ refilled (scene kern.old self.old ram.now.bytes) id q sender }
    {
        let Some(ask) = sender else {
            return;
        };
        self.put_message(ram, id, ask.buffer, ask.count, ask.urgent);
        kern.end_wait(ask.who, OK, None);
    }
}
