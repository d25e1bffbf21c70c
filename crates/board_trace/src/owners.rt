//! A mutex that gets or loses its owner.

ghost use Rattle.std.specs.Prelude.{◌≡◌, ◌++◌, OnOk};
ghost use Rattle.board_trace.specs.Owners.{freed, owned, owners, same_owner as same_owner_lem};
ghost use Rattle.board_trace.specs.Mutexes.{mutex_named as mutex_named_lem};

use crate::happening::Happening;
use crate::list::add;
use crate::moment::{AfterStep, BeforeStep, mutex_of};
use wind_base::NoMemory;

// Adds that a mutex loses its owner.
fn add_freed(list: &mut Vec<Happening>, mutex: u32, owner: Option<u32>) -> Result<(), NoMemory>
    ensures { OnOk result (list.new.items ≡ list.old.items ++ freed mutex owner) }
{
    match owner {
        Some(owner) => add(list, Happening::Freed { mutex, owner }),
        None => Ok(()),
    }
}

// Adds that a mutex gets an owner.
fn add_owned(list: &mut Vec<Happening>, mutex: u32, owner: Option<u32>) -> Result<(), NoMemory>
    ensures { OnOk result (list.new.items ≡ list.old.items ++ owned mutex owner) }
{
    match owner {
        Some(owner) => add(list, Happening::Owned { mutex, owner }),
        None => Ok(()),
    }
}

// Whether two owners are the same.
fn same_owner(one: Option<u32>, other: Option<u32>) -> bool
    ensures { result ≡ same_owner_lem one other }
{
    match (one, other) {
        (None, None) => true,
        (Some(one), Some(other)) => one == other,
        (None, Some(_)) | (Some(_), None) => false,
    }
}

// The mutex that a step's call names.
fn mutex_named(before_step: &BeforeStep) -> Option<u32>
    ensures { result ≡ mutex_named_lem before_step.now.call }
{
    match &before_step.call {
        Some(call) => mutex_of(call),
        None => None,
    }
}

/// Adds the change of the owner of the mutex that the step's call names.
pub(crate) fn add_owners(
    list: &mut Vec<Happening>,
    before_step: &BeforeStep,
    after_step: &AfterStep,
) -> Result<(), NoMemory>
    ensures { OnOk result (list.new.items ≡ list.old.items ++ owners before_step.now after_step.now) }
{
    let (before, after) = (before_step.owner, after_step.owner);
    let Some(mutex) = mutex_named(before_step) else {
        return Ok(());
    };
    if same_owner(before, after) {
        return Ok(());
    }
    add_freed(list, mutex, before)?;
    add_owned(list, mutex, after)
}
