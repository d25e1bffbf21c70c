//! The ranges of a family, and what a member chooses from each.

ghost use Rattle.std.specs.Prelude.{◌≡◌, ◌<◌, ◌≤◌, ◌++◌, [], IfOk, OnOk};
ghost use Rattle.std.specs.List.{All};
ghost use Rattle.tick_family.specs.Inside.{IsEntry};
ghost use Rattle.tick_family.specs.Members.{choices as choices_lem, choice_of, members_of};
ghost use Rattle.tick_family.specs.Ranges.{chosen_time, chosen_times, range_in as range_in_lem, ranges_in};

use crate::entry::Entry;
use crate::extent::choices;
use crate::times::{Times, time_at};
use std::alloc::{AllocError, Global};

// The times of an entry, if it has more than one.
fn range_in(entry: Entry) -> Option<Times>
    ensures { result ≡ range_in_lem entry }
{
    match entry {
        Entry::Once(times, _) | Entry::Shift(times) if times.count > 1 => Some(times),
        _ => None,
    }
}

/// The ranges of entries: the times of each entry that has more than one, in order.
pub(crate) fn ranges_of(alloc: Global, entries: &[Entry]) -> Result<Vec<Times>, AllocError>
    ensures { IfOk result (λ ranges. ranges.items ≡ ranges_in entries.now) }
{
    let mut ranges = Vec::new(alloc);
    for entry in entries {
        if let Some(times) = range_in(*entry) {
            ranges.push(times)?;
        }
    }
    Ok(ranges)
}

// Adds the time that an entry chooses with number `place`, if it has more than one.
fn add_time(times: &mut Vec<u64>, entry: Entry, place: u64) -> Result<(), AllocError>
    requires entry { IsEntry entry }
    requires inside { place < choices_lem entry }
    ensures { OnOk result (times.new.items ≡ times.old.items ++ chosen_time entry place) }
{
    if let Some(range) = range_in(entry) {
        times.push(time_at(range, place))?;
    }
    Ok(())
}

/// The times that member `number` chooses, one from each range.
pub(crate) fn times_of(
    alloc: Global,
    entries: &[Entry],
    members: u64,
    number: u64,
) -> Result<Vec<u64>, AllocError>
    requires entries { All IsEntry entries.now }
    requires members { members ≡ members_of entries.now }
    requires inside { number < members }
    ensures { IfOk result (λ times. times.items ≡ chosen_times entries.now (choice_of entries.now number)) }
{
    let mut chosen = Vec::new(alloc);
    let mut below = members;
    let mut left = number;
    for entry in entries {
        below /= choices(*entry);
        let place = left / below;
        left %= below;
        add_time(&mut chosen, *entry, place)?;
    }
    Ok(chosen)
}
