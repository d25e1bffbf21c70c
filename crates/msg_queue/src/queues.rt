//! The message queues.

ghost use Rattle.std.specs.Prelude.{◌≡◌, IfOk, IsSome, MatchOption, Some, None, []};
ghost use Rattle.id_table.specs.Rows.{object_of};
ghost use Rattle.wind_core.specs.Orders.{first_waiter};
ghost use Rattle.msg_queue.specs.State.{asked_by};

use crate::asks::{Ask, ask_of};
use crate::queue::Queue;
use id_table::{Ident, Place, Table};
use std::alloc::Global;
use std::marker::Model;
use wind_base::NoMemory;
use wind_base::limits::{QUEUES, TASKS};
use wind_core::Kern;

/// The message queues, and the requests of the calls that wait at them.
#[derive(Drop)]
pub struct Queues {
    pub(crate) queues: Table<Queue>,
    pub(crate) asks: Vec<Ask>,
}

impl Model for Queues {
    ghost use Rattle.std.specs.Prelude.{◌≡◌, ◌≤◌, vec_capacity};
    ghost use Rattle.wind_base.specs.Limits.{most_queues, most_tasks};
    ghost use Rattle.msg_queue.specs.State.{QueuesState};
    ghost use Rattle.msg_queue.specs.Inside.{queues_in};

    ghost Value = { QueuesState };

    ghost view = { λ q. queues_in q.queues.rows q.asks.items };

    ghost invariant = { λ q. (q.queues.room ≡ most_queues) × (most_tasks ≤ vec_capacity q.asks) };
}

impl Queues {
    /// No queues, with room for 256, and for the requests of 256 tasks. No other call but `create`
    /// takes memory.
    pub fn reserved(alloc: Global) -> Result<Queues, NoMemory>
        ensures { IfOk result (λ q. q ≡ record { queues = []; asks = [] }) }
    {
        let queues = Table::reserved(alloc, QUEUES)?;
        let asks = Vec::with_capacity(alloc, TASKS as usize)?;
        Ok(Queues { queues, asks })
    }

    /// The queues by id.
    pub fn table(&self) -> &Table<Queue>
        ensures { result.now.rows ≡ self.now.queues }
    {
        &self.queues
    }

    // The id with this number, if its queue is live.
    pub(crate) fn find(&self, number: u32) -> Option<Ident>
        ensures { MatchOption result (object_of self.now.queues number ≡ None)
            (λ id. (id ≡ number) × IsSome (object_of self.now.queues id)) }
    {
        self.queues.find(number)
    }

    // The queue with this id, which must be live.
    pub(crate) fn queue(&self, id: Ident) -> &Queue
        requires { IsSome (object_of self.now.queues id) }
        ensures { object_of self.now.queues id ≡ Some result.now }
    {
        match self.queues.get(id) {
            Some(queue) => queue,
            None => unreachable!(),
        }
    }

    // The request of the first task that waits at a place.
    pub(crate) fn first_asking(&self, kern: &Kern, place: Place) -> Option<Ask>
        ensures { result ≡ asked_by self.now.asks (first_waiter kern.now.tasks place) }
    {
        let who = kern.first_waiter(place)?;
        ask_of(&self.asks, who).copied()
    }
}
