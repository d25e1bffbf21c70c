//! How mutexes, queues and device slots were used, line by line.

ghost use Rattle.std.specs.Prelude.{◌≡◌, if◌then◌else◌, map, IfOk, OnOk};
ghost use Rattle.std.specs.List.{list_any};
ghost use Rattle.trace_summary.specs.Holds.{holder_after};
ghost use Rattle.trace_summary.specs.Usage.{closed as closed_lem, coming as coming_lem, leaving as leaving_lem, move_of as move_of_lem, same_kind as same_kind_lem, same_object as same_object_lem};
ghost use Rattle.trace_summary.specs.Using.{entered, held, left, moved, unused as unused_lem, with_move, with_usage};

use crate::hold::{Hold, Holding, begun, ended, longer_of};
use crate::list::push;
use board_trace::Happening;
use std::alloc::Global;
use wind_base::NoMemory;

/// A kind of object.
#[derive(Clone, Copy, Debug, PartialEq, Eq)]
pub enum ObjectKind {
    /// A mutex.
    Mutex,
    /// A message queue.
    Queue,
    /// A device slot.
    Slot,
}

/// A mutex, a queue or a device slot.
#[derive(Clone, Copy, Debug, PartialEq, Eq)]
pub struct Object {
    /// Its kind.
    pub kind: ObjectKind,
    /// Its id, or the number of the slot.
    pub id: u32,
}

/// How an object was used. Each number is at most 2^64 - 1.
#[derive(Clone, Copy, Debug, PartialEq, Eq)]
pub struct Usage {
    /// The object.
    pub object: Object,
    /// How often the mutex got an owner, a message was added to the queue, or an interrupt of the
    /// slot was raised.
    pub entries: u64,
    /// How often the mutex lost its owner, a message was taken from the queue, or an interrupt of
    /// the slot was delivered.
    pub exits: u64,
    /// The most entries without an exit at one time: owners, messages or interrupts.
    pub most: u64,
    /// The task that holds the mutex at the end, if one does.
    pub holding: Option<Holding>,
    /// The longest time in which one task held the mutex; of several, the first.
    pub longest: Option<Hold>,
}

// Something comes to an object, or leaves it.
#[derive(Clone, Copy)]
struct Move {
    object: Object,
    enters: bool,
    // of a mutex the owner that comes or leaves
    owner: Option<u32>,
    // when the step begins, in board time
    time: u128,
}

// Whether two kinds are the same.
fn same_kind(one: ObjectKind, other: ObjectKind) -> bool
    ensures { result ≡ same_kind_lem one other }
{
    match one {
        ObjectKind::Mutex => matches!(other, ObjectKind::Mutex),
        ObjectKind::Queue => matches!(other, ObjectKind::Queue),
        ObjectKind::Slot => matches!(other, ObjectKind::Slot),
    }
}

// Whether two objects are the same.
fn same_object(one: Object, other: Object) -> bool
    ensures { result ≡ same_object_lem one other }
{
    same_kind(one.kind, other.kind) && one.id == other.id
}

// Something comes to an object.
fn coming(kind: ObjectKind, id: u32, owner: Option<u32>, time: u128) -> Option<Move>
    ensures { result ≡ coming_lem kind id owner time }
{
    Some(Move {
        object: Object { kind, id },
        enters: true,
        owner,
        time,
    })
}

// Something leaves an object.
fn leaving(kind: ObjectKind, id: u32, owner: Option<u32>, time: u128) -> Option<Move>
    ensures { result ≡ leaving_lem kind id owner time }
{
    Some(Move {
        object: Object { kind, id },
        enters: false,
        owner,
        time,
    })
}

// What comes to an object or leaves it in a step that begins at this board time.
fn move_of(time: u128, happening: &Happening) -> Option<Move>
    ensures { result ≡ move_of_lem time happening.now }
{
    match *happening {
        Happening::Owned { mutex, owner } => coming(ObjectKind::Mutex, mutex, Some(owner), time),
        Happening::Freed { mutex, owner } => leaving(ObjectKind::Mutex, mutex, Some(owner), time),
        Happening::Queued { queue, .. } => coming(ObjectKind::Queue, queue, None, time),
        Happening::Taken { queue, .. } => leaving(ObjectKind::Queue, queue, None, time),
        Happening::Interrupt { slot } => coming(ObjectKind::Slot, slot, None, time),
        Happening::Delivery { slot } => leaving(ObjectKind::Slot, slot, None, time),
        _ => None,
    }
}

impl Move {
    // Who holds the mutex after it.
    fn holder(&self) -> Option<Holding>
        ensures { result ≡ holder_after self.now }
    {
        if self.enters {
            return begun(self.owner, self.time);
        }
        None
    }
}

// Nothing came to an object.
fn unused(object: Object) -> Usage
    ensures { result ≡ unused_lem object }
{
    Usage {
        object,
        entries: 0,
        exits: 0,
        most: 0,
        holding: None,
        longest: None,
    }
}

impl Usage {
    // Something comes.
    fn enter(&mut self)
        ensures { self.new ≡ entered self.old }
    {
        self.entries = self.entries.saturating_add(1);
        self.most = self.entries.saturating_sub(self.exits).max(self.most);
    }

    // Something leaves.
    fn leave(&mut self)
        ensures { self.new ≡ left self.old }
    {
        self.exits = self.exits.saturating_add(1);
    }

    // Something comes or leaves.
    fn change(&mut self, enters: bool)
        ensures { self.new ≡ (if enters then entered self.old else left self.old) }
    {
        if enters {
            self.enter();
        } else {
            self.leave();
        }
    }

    // The hold that went on ends, and another begins if an owner comes.
    fn hold(&mut self, step: Move)
        ensures { self.new ≡ held step self.old }
    {
        self.longest = longer_of(ended(self.holding, step.time), self.longest);
        self.holding = step.holder();
    }

    // Something comes or leaves, if it is a move of this object.
    fn follow(&mut self, step: Move)
        ensures { self.new ≡ moved step self.old }
    {
        if same_object(self.object, step.object) {
            self.change(step.enters);
            self.hold(step);
        }
    }

    // The run ends at this board time, and so does the hold that goes on.
    fn closed(self, time: u128) -> Usage
        ensures { result ≡ closed_lem time self }
    {
        Usage {
            longest: longer_of(ended(self.holding, time), self.longest),
            ..self
        }
    }
}

// The object is among these.
fn has_object(uses: &[Usage], object: Object) -> bool
    ensures { result ≡ list_any (λ u. same_object_lem u.object object) uses.now }
{
    uses.iter().any(|usage| same_object(usage.object, object))
}

// Adds an object, unless it is among these.
fn add_object(uses: &mut Vec<Usage>, object: Object) -> Result<(), NoMemory>
    ensures { OnOk result (uses.new.items ≡ with_usage object uses.old.items) }
{
    if has_object(uses, object) {
        return Ok(());
    }
    push(uses, unused(object))
}

// Adds a move to that of its object.
fn follow_all(uses: &mut [Usage], step: Move)
    ensures { uses.new ≡ map (moved step) uses.old }
{
    for usage in uses.iter_mut() {
        usage.follow(step);
    }
}

// Adds a move.
fn add_move(uses: &mut Vec<Usage>, step: Move) -> Result<(), NoMemory>
    ensures { OnOk result (uses.new.items ≡ map (moved step) (with_usage step.object uses.old.items)) }
{
    add_object(uses, step.object)?;
    follow_all(uses, step);
    Ok(())
}

// Adds a move, if there is one.
fn add_if(uses: &mut Vec<Usage>, step: Option<Move>) -> Result<(), NoMemory>
    ensures { OnOk result (uses.new.items ≡ with_move step uses.old.items) }
{
    match step {
        Some(step) => add_move(uses, step),
        None => Ok(()),
    }
}

/// Adds what happens in a step that begins at this board time to how objects were used.
pub(crate) fn add_usage(
    uses: &mut Vec<Usage>,
    time: u128,
    happening: &Happening,
) -> Result<(), NoMemory>
    ensures { OnOk result (uses.new.items ≡ with_move (move_of_lem time happening.now) uses.old.items) }
{
    add_if(uses, move_of(time, happening))
}

/// How objects were used in a run that ends at this board time.
pub(crate) fn closed_uses(alloc: Global, uses: &[Usage], time: u128) -> Result<Vec<Usage>, NoMemory>
    ensures { IfOk result (λ v. v.items ≡ map (closed_lem time) uses.now) }
{
    let mut list = Vec::new(alloc);
    for usage in uses {
        push(&mut list, usage.closed(time))?;
    }
    Ok(list)
}
