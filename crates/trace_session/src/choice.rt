//! What of a run is told: of which steps, of which tasks, and which kinds of happenings.

ghost use Rattle.std.specs.Prelude.{◌≡◌, ◌≤◌, ◌<◌, ◌+◌, ◌^◌, ◌==◌, None, Some};
ghost use Rattle.std.specs.List.{list_any};
ghost use Rattle.trace_session.specs.Choice.{AreAlike, choice_state, chosen, everything as everything_lem, is_among as is_among_lem, is_of as is_of_lem, is_step, kind_of as kind_of_lem, kind_of_change as kind_of_change_lem};

use board_changes::Change;
use board_trace::{Happening, Subject, subject_of};
use kernel_world::Actor;

/// The kinds of happenings.
#[derive(Clone, Copy, Debug, PartialEq, Eq)]
pub enum Kind {
    /// What comes from outside: ticks, bytes, interrupts, files, and time while nobody runs.
    Outside,
    /// A task runs in place of another, or goes after the others of its priority.
    Runs,
    /// Kernel calls.
    Calls,
    /// Exceptions and aborts of the shell's line.
    Exceptions,
    /// A mutex gets an owner or loses it.
    Owners,
    /// Messages of queues.
    Messages,
    /// Waits and delays begin and end.
    Waits,
    /// Tasks are spawned, deleted, suspended and resumed.
    Tasks,
    /// Priorities change.
    Priorities,
    /// Watchdogs.
    Watchdogs,
    /// Modules are loaded and unloaded.
    Modules,
    /// Interrupt routines.
    Routines,
    /// What is written.
    Output,
    /// Instructions.
    Instructions,
}

/// What of a run is told.
#[derive(Debug, Drop)]
pub struct Choice {
    /// The first step, counted from 1.
    pub first: u64,
    /// The last step; none for the last of the run.
    pub last: Option<u64>,
    /// The ids of the tasks; none for everybody and the board.
    pub tasks: Option<Vec<u32>>,
    /// The kinds; none for all.
    pub kinds: Option<Vec<Kind>>,
}

// The kind of a change.
fn kind_of_change(change: &Change) -> Kind
    ensures { result ≡ kind_of_change_lem change.now }
{
    match change {
        Change::Spawned { .. }
        | Change::Deleted { .. }
        | Change::Suspended { .. }
        | Change::Resumed { .. } => Kind::Tasks,
        Change::Waits { .. }
        | Change::Sleeps { .. }
        | Change::Served { .. }
        | Change::Failed { .. }
        | Change::GoesOn { .. }
        | Change::Wakes { .. } => Kind::Waits,
        Change::Priority { .. } | Change::Normal { .. } => Kind::Priorities,
        Change::Yields { .. } => Kind::Runs,
        Change::Started { .. } | Change::Fired { .. } | Change::Cancelled { .. } => Kind::Watchdogs,
        Change::Loaded { .. } | Change::Unloaded { .. } => Kind::Modules,
    }
}

/// The kind of a happening.
pub(crate) fn kind_of(happening: &Happening) -> Kind
    ensures { result ≡ kind_of_lem happening.now }
{
    match happening {
        Happening::Tick { .. }
        | Happening::Arrival { .. }
        | Happening::Interrupt { .. }
        | Happening::Delivery { .. }
        | Happening::Jump { .. }
        | Happening::File(_) => Kind::Outside,
        Happening::Runs { .. } => Kind::Runs,
        Happening::Called { .. } => Kind::Calls,
        Happening::Exception { .. } | Happening::Abort => Kind::Exceptions,
        Happening::Owned { .. } | Happening::Freed { .. } => Kind::Owners,
        Happening::Queued { .. } | Happening::HandedOver { .. } | Happening::Taken { .. } => {
            Kind::Messages
        }
        Happening::Changed(change) => kind_of_change(change),
        Happening::RoutineEnds | Happening::RoutineBegins { .. } => Kind::Routines,
        Happening::Writes { .. } => Kind::Output,
        Happening::Instructions { .. } => Kind::Instructions,
    }
}

// One of these ids.
fn has_id(ids: &[u32], id: u32) -> bool
    ensures { result ≡ list_any (λ i. i == id) ids.now }
{
    ids.iter().any(|other| *other == id)
}

// A task with one of these ids.
fn is_of(ids: &[u32], who: Subject) -> bool
    ensures { result ≡ is_of_lem (Some ids.now) who }
{
    match who {
        Subject::Task(id) => has_id(ids, id),
        Subject::Board | Subject::Interrupt => false,
    }
}

// One of these kinds.
fn is_among(kinds: &[Kind], kind: Kind) -> bool
    ensures { result ≡ is_among_lem (Some kinds.now) kind }
{
    kinds.iter().any(|other| *other == kind)
}

impl Choice {
    /// Everything.
    pub fn everything() -> Choice
        ensures { choice_state result ≡ everything_lem }
    {
        Choice {
            first: 1,
            last: None,
            tasks: None,
            kinds: None,
        }
    }

    /// The steps have this number among them.
    pub(crate) fn has_step(&self, step: u64) -> bool
        ensures { result ≡ is_step (choice_state self.now) step }
    {
        let is_up_to = match self.last {
            Some(last) => step <= last,
            None => true,
        };
        self.first <= step && is_up_to
    }

    /// The tasks have this one among them.
    pub(crate) fn has_subject(&self, who: Subject) -> bool
        ensures { result ≡ is_of_lem (choice_state self.now).tasks who }
    {
        match &self.tasks {
            Some(ids) => is_of(ids, who),
            None => true,
        }
    }

    /// The kinds have this one among them.
    pub(crate) fn has_kind(&self, kind: Kind) -> bool
        ensures { result ≡ is_among_lem (choice_state self.now).kinds kind }
    {
        match &self.kinds {
            Some(kinds) => is_among(kinds, kind),
            None => true,
        }
    }

    /// A happening in the step with this number is told.
    pub(crate) fn has(&self, step: u64, happening: &Happening) -> bool
        ensures { result ≡ chosen (choice_state self.now) step happening.now }
    {
        self.has_step(step)
            && self.has_subject(subject_of(happening))
            && self.has_kind(kind_of(happening))
    }

    /// Instructions of a task or routine in the step with this number are told.
    pub(crate) fn has_instructions(&self, step: u64, who: Actor) -> bool
        ensures { result ≡ chosen (choice_state self.now) step (Happening.Instructions who 1) }
    {
        self.has(step, &Happening::Instructions { who, count: 1 })
    }

    /// At most this many steps after the first `made`; the choice has all of them, or none.
    pub(crate) fn most_alike(&self, made: u64, most: u64) -> u64
        requires { made + most < 2 ^ 63 }
        ensures within { result ≤ most }
        ensures alike { AreAlike (choice_state self.now) made result }
    {
        if made + 1 < self.first {
            return most.min(self.first - 1 - made);
        }
        let Some(last) = self.last else {
            return most;
        };
        if made < last {
            return most.min(last - made);
        }
        most
    }
}
