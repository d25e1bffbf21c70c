//! The requests of waiting calls.

ghost use Rattle.std.specs.Prelude.{◌≡◌, ◌==◌, ◌<◌, length, vec_capacity, option_copied};
ghost use Rattle.std.specs.List.{filter};
ghost use Rattle.msg_queue.specs.State.{ask_of, counts as counts_lem, with_new_ask};

use id_table::{Ident, Place};
use wind_core::Kern;

/// The request of a task's waiting call on a queue.
#[derive(Clone, Copy)]
pub struct Ask {
    /// The task.
    pub who: Ident,
    /// The queue, and the side at which the task waits.
    pub place: Place,
    /// The address of the task's buffer.
    pub buffer: u32,
    /// The length in bytes of the message to send, or of the room for one.
    pub count: u32,
    /// Whether the message is sent as urgent.
    pub urgent: bool,
}

// Whether a request is still valid: its task still waits there.
fn counts(kern: &Kern, ask: &Ask) -> bool
    ensures { result ≡ counts_lem kern.now ask.now }
{
    match kern.task(ask.who) {
        Some(task) => task.wait == Some(ask.place),
        None => false,
    }
}

// The request of a task.
pub(crate) fn ask_of(asks: &[Ask], who: Ident) -> Option<&Ask>
    ensures { option_copied result ≡ ask_of asks.now who }
{
    asks.iter().find(|ask| ask.who == who)
}

// Removes the requests that are no longer valid.
fn drop_stale(asks: &mut Vec<Ask>, kern: &Kern)
    ensures items { asks.new.items ≡ filter (counts_lem kern.now) asks.old.items }
    ensures capacity { vec_capacity asks.new ≡ vec_capacity asks.old }
{
    asks.retain(|ask| counts(kern, ask));
}

// Adds a request, after removing those that are no longer valid.
pub(crate) fn add_ask(asks: &mut Vec<Ask>, kern: &Kern, ask: Ask)
    requires { length (filter (counts_lem kern.now) asks.old.items) < vec_capacity asks.old }
    ensures items { asks.new.items ≡ with_new_ask kern.now asks.old.items ask }
    ensures capacity { vec_capacity asks.new ≡ vec_capacity asks.old }
{
    drop_stale(asks, kern);
    asks.push_reserved(ask);
}
