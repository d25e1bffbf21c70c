//! A vector with a gap.

ghost use Rattle.std.specs.Prelude.{◌≡◌, ◌≤◌, ◌<◌, ◌+◌, ◌-◌, [], IfOk, length, drop, slice_index_or, vec_capacity};
ghost use Rattle.std.specs.List.{insert, remove};

use std::alloc::Global;
use std::marker::Model;
use wind_base::NoMemory;

/// Elements in order, after a gap of `start` free places, which grows and shrinks by changes among
/// the first half. So a removal moves the fewer elements, and so does an insertion if there is a
/// gap. A contract sees the elements, and the greatest number of them.
#[derive(Drop)]
pub struct GapVec<T> {
    start: usize,
    held: Vec<T>,
}

impl<T> Model for GapVec<T> {
    ghost use Rattle.gap_vec.specs.State.{GapState, gap_code};

    ghost Value = { GapState T };

    ghost coded = { gap_code T.code };

    ghost use Rattle.std.specs.Prelude.{◌≤◌, length, drop, vec_capacity};

    ghost view = { λ x. record { items = drop x.start x.held.items; room = vec_capacity x.held } };

    ghost invariant = { λ x. x.start ≤ length x.held.items };
}

// Moves the elements after the gap to the front.
fn close_gap<T: Copy>(held: &mut Vec<T>, start: usize)
    requires { start ≤ length held.old.items }
    ensures items { held.new.items ≡ drop start held.old.items }
    ensures capacity { vec_capacity held.new ≡ vec_capacity held.old }
{
    let count = held.len() - start;
    held.copy_within(start.., 0);
    held.truncate(count);
}

// Inserts an element at a position after the gap.
fn put<T: Drop>(held: &mut Vec<T>, start: usize, at: usize, value: T)
    requires within { start + at ≤ length held.old.items }
    requires room { length held.old.items < vec_capacity held.old }
    ensures items { drop start held.new.items ≡ insert (drop start held.old.items) at value }
    ensures within { start ≤ length held.new.items }
    ensures capacity { vec_capacity held.old ≤ vec_capacity held.new }
{
    let Ok(()) = held.insert(start + at, value) else {
        unreachable!()
    };
}

// Inserts an element at a position after the gap: those before it move down by one place.
fn put_in_gap<T: Copy>(held: &mut Vec<T>, start: usize, at: usize, value: T)
    requires some { 0 < start }
    requires within { start + at ≤ length held.old.items }
    ensures items { drop (start - 1) held.new.items ≡ insert (drop start held.old.items) at value }
    ensures within { start - 1 ≤ length held.new.items }
    ensures capacity { vec_capacity held.new ≡ vec_capacity held.old }
{
    held.copy_within(start..start + at, start - 1);
    held[start + at - 1] = value;
}

// Moves the elements between the gap and the position `at` up by one place, over the one there.
fn move_up<T: Copy>(held: &mut Vec<T>, start: usize, at: usize)
    requires { start + at < length held.old.items }
    ensures items { drop (start + 1) held.new.items ≡ remove (drop start held.old.items) at }
    ensures within { start + 1 ≤ length held.new.items }
    ensures capacity { vec_capacity held.new ≡ vec_capacity held.old }
{
    held.copy_within(start..start + at, start + 1);
}

// Moves the elements after the position `at` down by one place, over the one there.
fn move_down<T: Copy>(held: &mut Vec<T>, start: usize, at: usize)
    requires { start + at < length held.old.items }
    ensures items { drop start held.new.items ≡ remove (drop start held.old.items) at }
    ensures within { start ≤ length held.new.items }
    ensures capacity { vec_capacity held.new ≡ vec_capacity held.old }
{
    held.remove(start + at);
}

impl<T> GapVec<T> {
    /// No elements, with room for `n` at least. No other call takes memory.
    pub fn with_capacity(alloc: Global, n: usize) -> Result<GapVec<T>, NoMemory>
        ensures items { IfOk result (λ x. x.items ≡ []) }
        ensures room { IfOk result (λ x. n ≤ x.room) }
    {
        let held = Vec::with_capacity(alloc, n)?;
        Ok(GapVec { start: 0, held })
    }

    /// The elements.
    #[inline(always)]
    pub fn as_slice(&self) -> &[T]
        ensures { result.now ≡ self.now.items }
    {
        &self.held[self.start..]
    }
}

impl<T: Copy> GapVec<T> {
    /// Inserts an element at a position. There must be room for it.
    pub fn insert(&mut self, at: usize, value: T)
        requires at { at ≤ length self.old.items }
        requires room { length self.old.items < self.old.room }
        ensures items { self.new.items ≡ insert self.old.items at value }
        ensures room { self.old.room ≤ self.new.room }
    {
        if self.start > 0 && at < self.held.len() - self.start - at {
            put_in_gap(&mut self.held, self.start, at, value);
            self.start -= 1;
        } else if self.held.len() < self.held.capacity() {
            put(&mut self.held, self.start, at, value);
        } else {
            close_gap(&mut self.held, self.start);
            self.start = 0;
            put(&mut self.held, 0, at, value);
        }
    }

    /// Removes the element at a position.
    pub fn remove(&mut self, at: usize) -> T
        requires { at < length self.old.items }
        ensures value { result ≡ slice_index_or self.old.items at result }
        ensures items { self.new.items ≡ remove self.old.items at }
        ensures room { self.new.room ≡ self.old.room }
    {
        let value = self.held[self.start + at];
        if at < self.held.len() - self.start - at {
            move_up(&mut self.held, self.start, at);
            self.start += 1;
        } else {
            move_down(&mut self.held, self.start, at);
        }
        value
    }
}
