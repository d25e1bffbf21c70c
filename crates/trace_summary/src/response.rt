//! Responses: how long a task takes from the end of a wait until it runs.

ghost use Rattle.std.specs.Prelude.{◌≡◌, ◌++◌, ◌∷◌, [], nat_eq, None, List, OnOk};
ghost use Rattle.std.specs.HashMap.{get};
ghost use Rattle.board_changes.specs.declared.spans.Span.{Span};
ghost use Rattle.trace_summary.specs.Keeping.{KeepsResponses, is_noted as is_noted_lem};
ghost use Rattle.trace_summary.specs.Progress.{kept_of};
ghost use Rattle.trace_summary.specs.Stretches.{ResponseState, greatest, response_by, responses, with_response};

use crate::by_id::{put_at, value_at};
use board_changes::{Span, Standing};
use std::collections::HashMap;
use wind_base::NoMemory;

/// What is kept of the responses of a task.
#[derive(Clone, Copy)]
pub(crate) struct Responses {
    // since when it has waited for nothing and hasn't run, if it waited
    since: Option<u128>,
    // the longest response
    longest: u128,
}

impl Responses {
    // It has none.
    fn none() -> Responses
        ensures { result ≡ kept_of (record { since = None; times = [] }) }
    {
        Responses {
            since: None,
            longest: 0,
        }
    }

    // The task runs at this time.
    fn run(self, time: u128) -> Responses
        ensures { (r : ResponseState) → self ≡ kept_of r
            → result ≡ kept_of (record { since = None; times = with_response r.since time r.times }) }
    {
        let Responses { since, longest } = self;
        let Some(since) = since else {
            return Responses {
                since: None,
                longest,
            };
        };
        Responses {
            since: None,
            longest: time.saturating_sub(since).max(longest),
        }
    }

    // A wait ends, or the task runs.
    fn with_own(self, span: &Span) -> Responses
        ensures { (r : ResponseState) → self ≡ kept_of r
            → result ≡ kept_of (response_by span.now.look.standing span.now r) }
    {
        match span.look.standing {
            Standing::Waiting => Responses {
                since: Some(span.to),
                ..self
            },
            Standing::Running => self.run(span.from),
            Standing::Ready | Standing::Sleeping | Standing::Suspended => self,
        }
    }
}

// A span with this standing leaves the responses as they are, unless the task waits in it, or has
// waited and runs.
fn is_noted(standing: Standing, responses: &Responses) -> bool
    ensures { result ≡ is_noted_lem standing responses.now }
{
    match standing {
        Standing::Waiting => true,
        Standing::Running => responses.since.is_some(),
        Standing::Ready | Standing::Sleeping | Standing::Suspended => false,
    }
}

/// Adds a span to the responses of its task.
pub(crate) fn add_response(tasks: &mut HashMap<u32, Responses>, span: &Span) -> Result<(), NoMemory>
    ensures { OnOk result ((spans : List Span) → KeepsResponses spans (get nat_eq tasks.old)
        → KeepsResponses (spans ++ span.now ∷ []) (get nat_eq tasks.new)) }
{
    let who = span.who.get();
    let responses = value_at(tasks, who, Responses::none());
    if !is_noted(span.look.standing, &responses) {
        return Ok(());
    }
    put_at(tasks, who, responses.with_own(span))
}

/// The longest response of a task, in board time; 0 if it has none.
pub(crate) fn longest_response(tasks: &HashMap<u32, Responses>, who: u32) -> u128
    ensures { (spans : List Span) → KeepsResponses spans (get nat_eq tasks.now)
        → result ≡ greatest (responses who spans) }
{
    value_at(tasks, who, Responses::none()).longest
}
