//! The holes of a pool, in order of address, as lists.

ghost use Rattle.std.specs.Prelude.{◌≡◌, ◌<◌, ◌≤◌, ◌^◌, ◌+◌, ◌++◌, length, take, drop, slice_index_or, nat_le, vec_len, vec_capacity};
ghost use Rattle.std.specs.List.{position_or_len};
ghost use Rattle.std.specs.List.Sorted.{IsNonDecreasingBy};
ghost use Rattle.wind_base.specs.declared.board_kind.Side.TheVariants.{Low, High};
ghost use Rattle.mem_partition.specs.Place.{greatest_align};
ghost use Rattle.mem_partition.specs.Holes.{nearest, in_hole, hole_on, put_gap, cut_out, joined, merged};

use crate::gaps::{align_down, align_up};
use wind_base::Side;

/// A part of the pool that is in no block: from address `start` up to `end`, the first address
/// after it.
#[derive(Clone, Copy, Debug, PartialEq, Eq)]
pub struct Hole {
    /// Its first address.
    pub start: u32,
    /// The first address after it.
    pub end: u32,
}

/// The only multiple of `align` in question for `size` bytes in a hole.
fn nearest_in(hole: Hole, size: u64, align: u64, side: Side) -> u64
    requires some { 1 ≤ align }
    requires align { align ≤ greatest_align }
    ensures value { result ≡ nearest side size align hole }
    ensures small { result < 2 ^ 33 }
{
    match side {
        Side::Low => align_up(u64::from(hole.start), align),
        Side::High => align_down(u64::from(hole.end).saturating_sub(size), align),
    }
}

/// The multiple of `align` in a hole that is nearest to the side and has room for `size` bytes.
fn place_in(hole: Hole, size: u64, align: u64, side: Side) -> Option<u64>
    requires some { 1 ≤ align }
    requires align { align ≤ greatest_align }
    requires size { size < 2 ^ 33 }
    ensures { result ≡ in_hole side size align hole }
{
    let at = nearest_in(hole, size, align, side);
    if u64::from(hole.start) <= at && at + size <= u64::from(hole.end) {
        Some(at)
    } else {
        None
    }
}

/// The address in the first hole that has room, from the lowest hole up.
fn first_with_room(list: &[Hole], size: u64, align: u64) -> Option<u64>
    requires some { 1 ≤ align }
    requires align { align ≤ greatest_align }
    requires size { size < 2 ^ 33 }
    ensures { result ≡ hole_on Low size align list.now }
{
    for hole in list {
        let at = place_in(*hole, size, align, Side::Low);
        if at.is_some() {
            return at;
        }
    }
    None
}

/// The address in the last hole that has room, from the highest hole down.
fn last_with_room(list: &[Hole], size: u64, align: u64) -> Option<u64>
    requires some { 1 ≤ align }
    requires align { align ≤ greatest_align }
    requires size { size < 2 ^ 33 }
    ensures { result ≡ hole_on High size align list.now }
{
    for i in (0..list.len()).rev() {
        let at = place_in(list[i], size, align, Side::High);
        if at.is_some() {
            return at;
        }
    }
    None
}

/// The multiple of `align` that is nearest to the side and from which a hole has room for `size`
/// bytes.
pub(crate) fn with_room(list: &[Hole], size: u64, align: u64, side: Side) -> Option<u64>
    requires some { 1 ≤ align }
    requires align { align ≤ greatest_align }
    requires size { size < 2 ^ 33 }
    ensures { result ≡ hole_on side size align list.now }
{
    match side {
        Side::Low => first_with_room(list, size, align),
        Side::High => last_with_room(list, size, align),
    }
}

/// Inserts the hole from `lo` to `hi` at a position, unless it is empty.
pub(crate) fn put_in(list: &mut Vec<Hole>, position: usize, lo: u32, hi: u32)
    requires position { position ≤ length list.old.items }
    requires room { vec_len list.old < vec_capacity list.old }
    ensures items { list.new.items ≡ put_gap position lo hi list.old.items }
    ensures capacity { vec_capacity list.new ≡ vec_capacity list.old }
{
    if lo < hi {
        let Ok(()) = list.insert(position, Hole { start: lo, end: hi }) else {
            unreachable!()
        };
    }
}

/// How many holes end before an address.
fn rank_of(list: &[Hole], at: u32) -> usize
    requires { IsNonDecreasingBy (λ h. h.end) list.now }
    ensures value { result ≡ position_or_len (λ h. nat_le at h.end) list.now }
    ensures within { result ≤ length list.now }
{
    list.partition_point(|hole| hole.end < at)
}

/// Cuts the addresses from `lo` to `hi` out of the hole that contains them.
pub(crate) fn cut(list: &mut Vec<Hole>, lo: u32, hi: u32)
    requires order { IsNonDecreasingBy (λ h. h.end) list.old.items }
    requires room { vec_len list.old < vec_capacity list.old }
    ensures items { list.new.items ≡ cut_out lo hi list.old.items }
    ensures capacity { vec_capacity list.new ≡ vec_capacity list.old }
{
    let position = rank_of(list, hi);
    if position == list.len() {
        return;
    }
    let hole = list.remove(position);
    put_in(list, position, hi, hole.end);
    put_in(list, position, hole.start, lo);
}

/// Inserts the hole from `lo` to `hi` at a position, or extends the hole there down to `lo` if it
/// begins at `hi`.
fn put_joined(list: &mut Vec<Hole>, position: usize, lo: u32, hi: u32)
    requires position { position ≤ length list.old.items }
    requires room { position + length (joined lo hi (drop position list.old.items)) ≤ vec_capacity list.old }
    ensures items { list.new.items
        ≡ take position list.old.items ++ joined lo hi (drop position list.old.items) }
    ensures capacity { vec_capacity list.new ≡ vec_capacity list.old }
{
    if position < list.len() && list[position].start == hi {
        list[position].start = lo;
    } else {
        let Ok(()) = list.insert(position, Hole { start: lo, end: hi }) else {
            unreachable!()
        };
    }
}

/// Extends the hole at a position up to `hi`, and through the next hole if this begins at `hi`.
fn extend_up(list: &mut Vec<Hole>, position: usize, hi: u32)
    requires position { position < length list.old.items }
    ensures items { (d : Hole) → list.new.items ≡ take position list.old.items
        ++ joined (slice_index_or list.old.items position d).start hi (drop (position + 1) list.old.items) }
    ensures capacity { vec_capacity list.new ≡ vec_capacity list.old }
{
    let start = list[position].start;
    let next = position + 1;
    if next < list.len() && list[next].start == hi {
        let end = list.remove(next).end;
        list[position] = Hole { start, end };
    } else {
        list[position] = Hole { start, end: hi };
    }
}

/// Inserts the hole from `lo` to `hi`, merged with the holes on both sides.
pub(crate) fn merge(list: &mut Vec<Hole>, lo: u32, hi: u32)
    requires order { IsNonDecreasingBy (λ h. h.end) list.old.items }
    requires room { length (merged lo hi list.old.items) ≤ vec_capacity list.old }
    ensures items { list.new.items ≡ merged lo hi list.old.items }
    ensures capacity { vec_capacity list.new ≡ vec_capacity list.old }
{
    let position = rank_of(list, lo);
    if position < list.len() && list[position].end == lo {
        extend_up(list, position, hi);
    } else {
        put_joined(list, position, lo, hi);
    }
}
