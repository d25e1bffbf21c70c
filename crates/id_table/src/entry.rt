//! An index by rising id: where in a slab what each id names is.

ghost use Rattle.std.specs.Prelude.{◌≡◌, ◌<◌, ◌≤◌, length, map, nat_lt, true, false, None, MatchOption, IsTrue};
ghost use Rattle.std.specs.List.{All, find};
ghost use Rattle.std.specs.List.Sorted.{IsPartitionPoint};
ghost use Rattle.id_table.specs.Records.{of_id, Rising, StandsAt};
ghost use Rattle.id_table.specs.Entries.{entry_id};

use crate::ident::Ident;

/// An id, and the key of what it names in a slab.
#[derive(Clone, Copy, Drop)]
pub struct Entry {
    /// The id.
    pub id: Ident,
    /// The key in the slab.
    pub key: usize,
}

// Whether all ids are below this one.
#[inline(always)]
fn are_below(order: &[Entry], id: Ident) -> bool
    requires { Rising entry_id order.now }
    ensures { IsTrue result → All (λ e. e.id < id) order.now }
{
    if order.is_empty() {
        return true;
    }
    order[order.len() - 1].id.get() < id.get()
}

/// The number of entries with an id below this one. A new id, which is the greatest, costs one
/// comparison.
pub fn rank_of(order: &[Entry], id: Ident) -> usize
    requires { Rising entry_id order.now }
    ensures within { result ≤ length order.now }
    ensures split { IsPartitionPoint (λ e. nat_lt e.id id ≡ true) (λ e. nat_lt e.id id ≡ false) order.now result }
{
    if are_below(order, id) {
        return order.len();
    }
    let number = id.get();
    order.partition_point(|entry| entry.id.get() < number)
}

// The position of the entry with this id, by binary search. None if there is none.
fn binary_search(order: &[Entry], id: Ident) -> Option<usize>
    requires { Rising entry_id order.now }
    ensures { MatchOption result (of_id entry_id order.now id ≡ None) (λ position. StandsAt entry_id order.now id position) }
{
    let rank = rank_of(order, id);
    if rank == order.len() {
        return None;
    }
    if order[rank].id == id {
        Some(rank)
    } else {
        None
    }
}

// The position of an id if every number from the first id up to it is in the order.
#[inline(always)]
fn from_first(order: &[Entry], id: Ident) -> usize {
    match order.first() {
        Some(first) => id.get().wrapping_sub(first.id.get()) as usize,
        None => 0,
    }
}

// The position of an id if every number from it up to the last id is in the order.
#[inline(always)]
fn from_last(order: &[Entry], id: Ident) -> usize {
    match order.last() {
        Some(last) => (order.len() - 1).wrapping_sub(last.id.get().wrapping_sub(id.get()) as usize),
        None => 0,
    }
}

// The position of an id if the ids of the order are evenly spaced.
fn between(order: &[Entry], id: Ident) -> usize {
    let Some(first) = order.first() else { return 0 };
    let Some(last) = order.last() else { return 0 };
    let span = last.id.get().wrapping_sub(first.id.get());
    if span == 0 {
        return 0;
    }
    let distance = u64::from(id.get().wrapping_sub(first.id.get()));
    let gaps = order.len() as u64;
    (distance.wrapping_mul(gaps.wrapping_sub(1)) / u64::from(span)) as usize
}

// The position of the entry with this id, by interpolation, or else by binary search. None if there
// is none.
#[inline(never)]
fn search(order: &[Entry], id: Ident) -> Option<usize>
    requires { Rising entry_id order.now }
    ensures { MatchOption result (of_id entry_id order.now id ≡ None) (λ position. StandsAt entry_id order.now id position) }
{
    let near = between(order, id);
    if near < order.len() && order[near].id == id {
        return Some(near);
    }
    binary_search(order, id)
}

/// The position of the entry with this id. None if there is none. It costs the same in every order
/// whose ids follow each other without a gap before or after this one, or are evenly spaced.
pub fn position_of(order: &[Entry], id: Ident) -> Option<usize>
    requires { Rising entry_id order.now }
    ensures { MatchOption result (of_id entry_id order.now id ≡ None) (λ position. StandsAt entry_id order.now id position) }
{
    if are_below(order, id) {
        return None;
    }
    let near = from_first(order, id);
    if near < order.len() && order[near].id == id {
        return Some(near);
    }
    let near = from_last(order, id);
    if near < order.len() && order[near].id == id {
        return Some(near);
    }
    search(order, id)
}

// The same, but looks first at the position `near`: usually that of the last entry found.
#[inline]
pub(crate) fn position_near(order: &[Entry], id: Ident, near: usize) -> Option<usize>
    requires { Rising entry_id order.now }
    ensures { MatchOption result (of_id entry_id order.now id ≡ None) (λ position. StandsAt entry_id order.now id position) }
{
    if near < order.len() && order[near].id == id {
        return Some(near);
    }
    position_of(order, id)
}

// The first id above `n`.
pub(crate) fn id_above(order: &[Entry], n: u32) -> Option<Ident>
    requires { Rising entry_id order.now }
    ensures { result ≡ find (λ id. nat_lt n id) (map entry_id order.now) }
{
    let above = order.partition_point(|entry| entry.id.get() <= n);
    if above == order.len() {
        None
    } else {
        Some(order[above].id)
    }
}
