//! The waiters of a place: a run of the only list.

ghost use Rattle.std.specs.Option.{ForSome};
ghost use Rattle.std.specs.Prelude.{◌≡◌, ◌≤◌, ◌<◌, IsSome, length, vec_capacity};
ghost use Rattle.linked_lists.specs.Chains.{value_of};
ghost use Rattle.wait_order.specs.Inside.{waiters_in, put_in, AreFronts, IsOwn, IsKept, IsAfter, IsPlace, IsGone, stays, next_there};

use crate::fronts::{Front, first_at, put, remove};
use crate::order::{precedes, stands_at};
use crate::waits::Waiter;
use linked_lists::{IdLists, Ident, Place};

/// The number of the only list.
pub(crate) const LIST: usize = 0;

// The waiter, from `start` on, before which the new waiter is inserted. None if it goes to the end.
pub(crate) fn place_of(
    waiters: &IdLists<Waiter>,
    start: Option<Ident>,
    waiter: &Waiter,
) -> Option<Ident>
    requires own { IsOwn waiters.now.chains }
    requires start { IsAfter (waiters_in waiters.now.chains) start waiter.now }
    ensures { IsPlace (waiters_in waiters.now.chains) result waiter.now }
{
    waiters.facts();
    let mut next = start;
    for _passed in 0..waiters.len() {
        let Some(id) = next else {
            return None;
        };
        if !precedes(waiters.value(id), waiter) {
            return next;
        }
        next = waiters.next(id);
    }
    next
}

// Whether the first waiter of the new waiter's place stays the first.
fn first_stays(fronts: &[Front], waiters: &IdLists<Waiter>, waiter: &Waiter) -> bool
    requires { IsKept waiters.now.chains fronts.now }
    ensures { result ≡ stays (waiters_in waiters.now.chains) waiter.now }
{
    waiters.facts();
    match first_at(fronts, &waiter.place) {
        Some(id) => precedes(waiters.value(id), waiter),
        None => false,
    }
}

// Updates the first waiters before a waiter is inserted.
pub(crate) fn come(fronts: &mut Vec<Front>, waiters: &IdLists<Waiter>, waiter: &Waiter)
    requires kept { IsKept waiters.now.chains fronts.old.items }
    requires room { length fronts.old.items < vec_capacity fronts.old }
    ensures fronts { AreFronts (put_in (waiters_in waiters.now.chains) waiter.now) fronts.new.items }
    ensures capacity { vec_capacity fronts.old ≤ vec_capacity fronts.new }
{
    if first_stays(fronts, waiters, waiter) {
        return;
    }
    put(fronts, waiter.place, waiter.who);
}

// The waiter after the removed one, if it waits at the same place.
fn next_at(waiters: &IdLists<Waiter>, next: Option<Ident>, place: &Place) -> Option<Ident>
    requires own { IsOwn waiters.now.chains }
    requires next { ForSome next (λ id. IsSome (value_of waiters.now.chains id)) }
    ensures { result ≡ next_there (waiters_in waiters.now.chains) next place.now }
{
    let id = next?;
    if stands_at(waiters.value(id), place) {
        Some(id)
    } else {
        None
    }
}

// Updates the first waiters after the waiter before `next` was removed.
pub(crate) fn go(
    fronts: &mut Vec<Front>,
    waiters: &IdLists<Waiter>,
    gone: &Waiter,
    next: Option<Ident>,
)
    requires { IsGone waiters.now.chains fronts.old.items gone.now next }
    ensures fronts { AreFronts (waiters_in waiters.now.chains) fronts.new.items }
    ensures capacity { vec_capacity fronts.old ≤ vec_capacity fronts.new }
{
    let Some(first) = first_at(fronts, &gone.place) else {
        return;
    };
    if first != gone.who {
        return;
    }
    match next_at(waiters, next, &gone.place) {
        Some(id) => put(fronts, gone.place, id),
        None => remove(fronts, &gone.place),
    }
}
