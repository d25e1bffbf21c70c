//! Which of two places, and which of two waiters, comes first.

ghost use Rattle.std.specs.Prelude.{◌≡◌};
ghost use Rattle.wait_order.specs.Line.{stands_at as stands_at_lem};
ghost use Rattle.wait_order.specs.Fronts.{same_place as same_place_lem, place_before as place_before_lem};
ghost use Rattle.wait_order.specs.Inside.{precedes as precedes_lem};

use crate::waits::Waiter;
use linked_lists::Place;

// Whether two places are the same.
pub(crate) fn same_place(a: &Place, b: &Place) -> bool
    ensures { result ≡ same_place_lem a.now b.now }
{
    a.side == b.side && a.id == b.id
}

// Whether place `a` comes before place `b`: by side, then by object.
pub(crate) fn place_before(a: &Place, b: &Place) -> bool
    ensures { result ≡ place_before_lem a.now b.now }
{
    a.side < b.side || a.side == b.side && a.id.get() < b.id.get()
}

// Whether the waiter waits at this place.
pub(crate) fn stands_at(waiter: &Waiter, place: &Place) -> bool
    ensures { result ≡ stands_at_lem place.now waiter.now }
{
    same_place(&waiter.place, place)
}

// Whether waiter `a` precedes waiter `b`: by place, then by key.
pub(crate) fn precedes(a: &Waiter, b: &Waiter) -> bool
    ensures { result ≡ precedes_lem a.now b.now }
{
    if !same_place(&a.place, &b.place) {
        return place_before(&a.place, &b.place);
    }
    let (a, b) = ((a.pri, a.since, a.who.get()), (b.pri, b.since, b.who.get()));
    a.0 < b.0 || a.0 == b.0 && (a.1 < b.1 || a.1 == b.1 && a.2 < b.2)
}
