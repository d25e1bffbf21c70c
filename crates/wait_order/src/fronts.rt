//! The first waiter of each place in use, by place.

ghost use Rattle.std.specs.Prelude.{◌≡◌, ◌≤◌, ◌<◌, None, Some, length, MatchResult, vec_capacity};
ghost use Rattle.wait_order.specs.Fronts.{Rises, front_of, first_from as first_from_lem, IsRank, StandsHere, GoesHere, IsPut};

use crate::order::{place_before, same_place};
use linked_lists::{Ident, Place};

// A place, and the first task that waits there.
#[derive(Clone, Copy, Drop)]
pub(crate) struct Front {
    pub(crate) place: Place,
    pub(crate) first: Ident,
}

// The number of places in use that come before this one.
fn rank_of(fronts: &[Front], place: &Place) -> usize
    requires { Rises fronts.now }
    ensures within { result ≤ length fronts.now }
    ensures split { IsRank fronts.now place.now result }
{
    fronts.partition_point(|prefix| place_before(&prefix.place, place))
}

// The index of a place in use, or the index at which to insert it.
fn search(fronts: &[Front], place: &Place) -> Result<usize, usize>
    requires { Rises fronts.now }
    ensures within { MatchResult result (λ at. at < length fronts.now) (λ at. at ≤ length fronts.now) }
    ensures found { MatchResult result (StandsHere fronts.now place.now) (GoesHere fronts.now place.now) }
{
    let rank = rank_of(fronts, place);
    if rank == fronts.len() {
        return Err(rank);
    }
    if same_place(&fronts[rank].place, place) {
        Ok(rank)
    } else {
        Err(rank)
    }
}

// The first task that waits at a place. None if no task waits there.
pub(crate) fn first_at(fronts: &[Front], place: &Place) -> Option<Ident>
    requires { Rises fronts.now }
    ensures { result ≡ front_of fronts.now place.now }
{
    match search(fronts, place) {
        Ok(at) => Some(fronts[at].first),
        Err(_) => None,
    }
}

// The first waiter of a place, or of the next place in use if no task waits there. None if there is
// neither.
pub(crate) fn first_from(fronts: &[Front], place: &Place) -> Option<Ident>
    requires { Rises fronts.now }
    ensures { result ≡ first_from_lem fronts.now place.now }
{
    let rank = rank_of(fronts, place);
    if rank == fronts.len() {
        return None;
    }
    Some(fronts[rank].first)
}

// Sets the first waiter of a place.
pub(crate) fn put(fronts: &mut Vec<Front>, place: Place, first: Ident)
    requires rising { Rises fronts.old.items }
    requires room { front_of fronts.old.items place ≡ None → length fronts.old.items < vec_capacity fronts.old }
    ensures put { IsPut fronts.old.items place (Some first) fronts.new.items }
    ensures capacity { vec_capacity fronts.old ≤ vec_capacity fronts.new }
{
    match search(fronts, &place) {
        Ok(at) => fronts[at] = Front { place, first },
        Err(at) => {
            let Ok(()) = fronts.insert(at, Front { place, first }) else {
                unreachable!()
            };
        }
    }
}

// Removes the entry of a place, if there is one.
pub(crate) fn remove(fronts: &mut Vec<Front>, place: &Place)
    requires rising { Rises fronts.old.items }
    ensures put { IsPut fronts.old.items place.now None fronts.new.items }
    ensures capacity { vec_capacity fronts.old ≤ vec_capacity fronts.new }
{
    if let Ok(at) = search(fronts, place) {
        fronts.remove(at);
    }
}
