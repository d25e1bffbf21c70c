//! The names of the kinds of happenings.

ghost use Rattle.std.specs.Prelude.{◌≡◌, find, option_copied};
ghost use Rattle.std.specs.Str.{bytes_eq};
ghost use Rattle.trace_session.specs.Kinds.{kind_name as kind_name_lem, kind_named as kind_named_lem};

use crate::choice::Kind;
use std::alloc::{AllocError, Global};

// Every kind.
const KINDS: [Kind; 14] = [
    Kind::Outside,
    Kind::Runs,
    Kind::Calls,
    Kind::Exceptions,
    Kind::Owners,
    Kind::Messages,
    Kind::Waits,
    Kind::Tasks,
    Kind::Priorities,
    Kind::Watchdogs,
    Kind::Modules,
    Kind::Routines,
    Kind::Output,
    Kind::Instructions,
];

// The name of a kind.
fn kind_name(kind: Kind) -> &'static str
    ensures { result.now ≡ kind_name_lem kind }
{
    match kind {
        Kind::Outside => "outside",
        Kind::Runs => "runs",
        Kind::Calls => "calls",
        Kind::Exceptions => "exceptions",
        Kind::Owners => "owners",
        Kind::Messages => "messages",
        Kind::Waits => "waits",
        Kind::Tasks => "tasks",
        Kind::Priorities => "priorities",
        Kind::Watchdogs => "watchdogs",
        Kind::Modules => "modules",
        Kind::Routines => "routines",
        Kind::Output => "output",
        Kind::Instructions => "instructions",
    }
}

// The kind with this name, if it is one of these.
fn named_in<'a>(kinds: &'a [Kind], name: &str) -> Option<&'a Kind>
    ensures { option_copied result ≡ find (λ k. bytes_eq (kind_name_lem k) name.now) kinds.now }
{
    kinds.iter().find(|kind| kind_name(**kind) == name)
}

/// The kind with this name.
pub(crate) fn kind_named(name: &str) -> Option<Kind>
    ensures { result ≡ kind_named_lem name.now }
{
    named_in(&KINDS, name).copied()
}

/// The message for invalid kinds.
pub(crate) fn kinds_message(alloc: Global) -> Result<String, AllocError> {
    let mut text = String::new(alloc);
    text.push_str("'--kinds <KIND,..>' takes some of these, separated by commas")?;
    let mut separator = ": ";
    for kind in &KINDS {
        text.push_str(separator)?;
        text.push_str(kind_name(*kind))?;
        separator = ", ";
    }
    Ok(text)
}
