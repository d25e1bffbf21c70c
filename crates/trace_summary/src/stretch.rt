//! Stretches of time: the longest in which a task does something.

ghost use Rattle.std.specs.Prelude.{◌≡◌, ◌++◌, ◌∷◌, [], nat_eq, List, OnOk};
ghost use Rattle.std.specs.HashMap.{get};
ghost use Rattle.board_changes.specs.declared.spans.Span.{Span};
ghost use Rattle.trace_summary.specs.Stretches.{has_kind as has_kind_lem, is_ready as is_ready_lem, is_waiting as is_waiting_lem, length_of, longer as longer_lem, longest, stretch_of as stretch_of_lem, stretches, with_stretch};
ghost use Rattle.trace_summary.specs.declared.stretch.Kind.{Kind};
ghost use Rattle.trace_summary.specs.Keeping.{KeepsStretches};
ghost use Rattle.trace_summary.specs.Progress.{progress_of};

use crate::by_id::{put_at, value_at};
use board_changes::{Awaited, Look, Span, Standing};
use std::collections::HashMap;
use wind_base::NoMemory;

/// What a task does in a stretch.
#[derive(Clone, Copy)]
pub(crate) enum Kind {
    /// It waits for something.
    Wait,
    /// It is ready and doesn't run.
    Ready,
    /// Its priority is inherited.
    Inherited,
}

/// A stretch of board time.
#[derive(Clone, Copy, Debug, PartialEq, Eq)]
pub struct Stretch {
    /// What the task waits for when it begins, if it waits.
    pub object: Option<Awaited>,
    /// When it begins.
    pub from: u128,
    /// When it ends.
    pub to: u128,
}

impl Stretch {
    /// How long it is.
    pub fn length(&self) -> u128
        ensures { result ≡ length_of self.now }
    {
        self.to.saturating_sub(self.from)
    }
}

// The task waits.
fn is_waiting(standing: Standing) -> bool
    ensures { result ≡ is_waiting_lem standing }
{
    match standing {
        Standing::Waiting => true,
        _ => false,
    }
}

// The task is ready and doesn't run.
fn is_ready(standing: Standing) -> bool
    ensures { result ≡ is_ready_lem standing }
{
    match standing {
        Standing::Ready => true,
        _ => false,
    }
}

// A task with this look does this.
fn has_kind(kind: Kind, look: &Look) -> bool
    ensures { result ≡ has_kind_lem kind look.now }
{
    match kind {
        Kind::Wait => is_waiting(look.standing),
        Kind::Ready => is_ready(look.standing),
        Kind::Inherited => look.inherits,
    }
}

// A span as a stretch.
fn stretch_of(span: &Span) -> Stretch
    ensures { result ≡ stretch_of_lem span.now }
{
    Stretch {
        object: span.look.object,
        from: span.from,
        to: span.to,
    }
}

// A stretch, or the longest of those before it, if none is longer.
fn longer(stretch: Stretch, longest: Option<Stretch>) -> Option<Stretch>
    ensures { result ≡ longer_lem stretch longest }
{
    let Some(best) = longest else {
        return Some(stretch);
    };
    if stretch.length() <= best.length() {
        return Some(best);
    }
    Some(stretch)
}

/// What is kept of stretches: the newest, and the longest of those before it.
#[derive(Clone, Copy)]
pub(crate) struct Progress {
    newest: Option<Stretch>,
    longest: Option<Stretch>,
}

impl Progress {
    // There is no stretch.
    fn none() -> Progress
        ensures { result ≡ progress_of [] }
    {
        Progress {
            newest: None,
            longest: None,
        }
    }

    // Adds a stretch.
    fn with_stretch(self, stretch: Stretch) -> Progress
        ensures { (made : List Stretch) → self ≡ progress_of made → result ≡ progress_of (with_stretch stretch made) }
    {
        let Progress { newest, longest } = self;
        let Some(newest) = newest else {
            return Progress {
                newest: Some(stretch),
                longest: None,
            };
        };
        if newest.to == stretch.from {
            let to = stretch.to;
            return Progress {
                newest: Some(Stretch { to, ..newest }),
                longest,
            };
        }
        Progress {
            newest: Some(stretch),
            longest: longer(newest, longest),
        }
    }

    // The longest of all stretches.
    fn longest(self) -> Option<Stretch>
        ensures { (made : List Stretch) → self ≡ progress_of made → result ≡ longest made }
    {
        let Progress { newest, longest } = self;
        match newest {
            Some(newest) => longer(newest, longest),
            None => None,
        }
    }
}

/// Adds a span to the stretches of its task, if it is of this kind.
pub(crate) fn add_stretch(
    tasks: &mut HashMap<u32, Progress>,
    kind: Kind,
    span: &Span,
) -> Result<(), NoMemory>
    ensures { OnOk result ((spans : List Span) → KeepsStretches kind spans (get nat_eq tasks.old)
        → KeepsStretches kind (spans ++ span.now ∷ []) (get nat_eq tasks.new)) }
{
    if !has_kind(kind, &span.look) {
        return Ok(());
    }
    let who = span.who.get();
    let progress = value_at(tasks, who, Progress::none()).with_stretch(stretch_of(span));
    put_at(tasks, who, progress)
}

/// The longest stretch of a task; of several, the first.
pub(crate) fn longest_stretch(tasks: &HashMap<u32, Progress>, who: u32) -> Option<Stretch>
    ensures { (kind : Kind) (spans : List Span) → KeepsStretches kind spans (get nat_eq tasks.now)
        → result ≡ longest (stretches kind who spans) }
{
    value_at(tasks, who, Progress::none()).longest()
}
