//! The events of a tick file, one after another.

ghost use Rattle.std.specs.Prelude.{◌≡◌, ◌<◌, ◌≤◌, ◌-◌, ◌^◌, ◌&&◌, ◌++◌, ◌∷◌, [], not, drop, OnOk, OnErr};
ghost use Rattle.std.specs.List.{All};
ghost use Rattle.std.specs.Option.{option_map};
ghost use Rattle.std.specs.BinaryHeap.{heap_items};
ghost use Rattle.id_table.specs.Sorting.{first};
ghost use Rattle.tick_file.specs.Schedule.{at, brings_bytes as brings_bytes_lem};
ghost use Rattle.tick_file.specs.Inside.{IsKept, IsSound, Agree, waiting};

use crate::event::{Event, Rule, brings_bytes};
use crate::pending::{Pending, at_start, moved_on};
use std::cmp::Reverse;
use std::collections::BinaryHeap;
use std::collections::binary_heap::PeekMut;
use std::marker::Model;
use wind_base::NoMemory;

/// The future events that a tick file asks for: by time, then by line, then by their order in the
/// line.
#[derive(Drop)]
pub struct Schedule {
    // the rules with future events
    heap: BinaryHeap<Reverse<Pending>>,
    on_demand: bool,
}

impl Model for Schedule {
    ghost use Rattle.std.specs.BinaryHeap.{heap_items};
    ghost use Rattle.tick_file.specs.Schedule.{Timetable};
    ghost use Rattle.tick_file.specs.Inside.{IsKept, waiting};

    ghost Value = { Timetable };

    ghost view = { λ s. record { events = waiting (heap_items s.heap); on_demand = s.on_demand } };

    ghost invariant = { λ s. IsKept (heap_items s.heap) };
}

// Removes the next event. If there is none, nothing changes.
fn drop_next(heap: &mut BinaryHeap<Reverse<Pending>>)
    requires { IsKept (heap_items heap.old) }
    ensures kept { IsKept (heap_items heap.new) }
    ensures events { waiting (heap_items heap.new) ≡ drop 1 (waiting (heap_items heap.old)) }
{
    let Some(mut top) = heap.peek_mut() else {
        return;
    };
    let rule = top.0;
    if rule.left > 1 {
        *top = Reverse(moved_on(rule));
        return;
    }
    let _ = PeekMut::pop(top);
}

// Adds the rule of one event, which comes after all future events. If memory runs out, nothing
// changes.
fn add_event(
    heap: &mut BinaryHeap<Reverse<Pending>>,
    line: u64,
    time: u64,
    event: Event,
) -> Result<(), NoMemory>
    requires kept { IsKept (heap_items heap.old) }
    requires small { time ≤ 2 ^ 32 - 1 }
    requires last { All (λ e. (e.time ≤ time) × (e.line < line)) (waiting (heap_items heap.old)) }
    ensures kept { IsKept (heap_items heap.new) }
    ensures ok { OnOk result (waiting (heap_items heap.new)
        ≡ waiting (heap_items heap.old) ++ record { time = time; line = line; number = 1; event = event } ∷ []) }
    ensures err { OnErr result (waiting (heap_items heap.new) ≡ waiting (heap_items heap.old)) }
{
    match heap.push(Reverse(at_start(line, Rule::At(time, event)))) {
        Ok(()) => Ok(()),
        Err(_) => Err(NoMemory),
    }
}

impl Schedule {
    // Makes the schedule of these rules.
    pub(crate) fn of_rules(rules: Vec<Reverse<Pending>>, on_demand: bool) -> Schedule
        requires sound { All (λ p. IsSound p.0) rules.items }
        requires agree { All (λ p. All (λ q. Agree p.0 q.0) rules.items) rules.items }
        ensures { result ≡ record { events = waiting rules.items; on_demand = on_demand } }
    {
        Schedule {
            heap: BinaryHeap::from(rules),
            on_demand,
        }
    }

    /// The board time of the next event, and the event; it stays the next one. `None` if there are
    /// no more events.
    pub fn next(&self) -> Option<(u64, Event)>
        ensures { result ≡ option_map at (first self.now.events) }
    {
        match self.heap.peek() {
            Some(Reverse(rule)) => Some((rule.time, rule.event)),
            None => None,
        }
    }

    /// Removes the next event. If there is none, nothing changes.
    pub fn advance(&mut self)
        ensures { self.new ≡ record self.old { events = drop 1 self.old.events } }
    {
        drop_next(&mut self.heap);
    }

    /// Whether input comes on demand, because the file has no line `rx`.
    pub fn on_demand(&self) -> bool
        ensures { result ≡ self.now.on_demand }
    {
        self.on_demand
    }

    /// Adds the event that line `line` of a longer file asks for. No future event may come later, or
    /// be asked for by that line or a later one. If memory runs out, nothing changes.
    pub fn add(&mut self, line: u64, time: u64, event: Event) -> Result<(), NoMemory>
        requires small { time ≤ 2 ^ 32 - 1 }
        requires last { All (λ e. (e.time ≤ time) × (e.line < line)) self.old.events }
        ensures ok { OnOk result (self.new ≡ record {
          events = self.old.events ++ record { time = time; line = line; number = 1; event = event } ∷ [];
          on_demand = self.old.on_demand && not (brings_bytes_lem event);
        }) }
        ensures err { OnErr result (self.new ≡ self.old) }
    {
        add_event(&mut self.heap, line, time, event)?;
        self.on_demand = self.on_demand && !brings_bytes(event);
        Ok(())
    }
}
