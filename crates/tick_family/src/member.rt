//! The events of a member.

ghost use Rattle.std.specs.Prelude.{◌≡◌, ◌+◌, ◌*◌, ◌<◌, ◌≤◌, ◌++◌, OnOk, IfOk};
ghost use Rattle.std.specs.List.{All};
ghost use Rattle.wind_base.specs.Limits.{greatest_word};
ghost use Rattle.id_table.specs.Sorting.{sorted};
ghost use Rattle.tick_file.specs.Writing.{recorded};
ghost use Rattle.tick_family.specs.Members.{choices, choice_of, chosen_events, entry_events, earlier, members_of, periodic};
ghost use Rattle.tick_family.specs.Inside.{IsEntry};

use crate::bytes::add_line;
use crate::entry::Entry;
use crate::extent::{choices as choices_of, shift_below};
use crate::times::time_at;
use std::alloc::{AllocError, Global};
use tick_file::Event;

// Adds `count` events one period apart, the first after one period, all moved by a shift.
#[tactic(auto, using(crate::proofs::TextLemmas::product_small))]
fn add_periodic(
    events: &mut Vec<(u64, Event)>,
    shift: u64,
    period: u64,
    count: u64,
    event: Event,
) -> Result<(), AllocError>
    requires shift { shift ≤ greatest_word }
    requires period { period ≤ greatest_word }
    requires count { count ≤ greatest_word }
    ensures { OnOk result (events.new.items ≡ events.old.items ++ periodic shift period event 1 count) }
{
    for done in 0..count {
        let time = (done + 1) * period + shift;
        events.push((time, event))?;
    }
    Ok(())
}

// Adds the events of an entry that chooses number `place`, under a shift.
fn add_entry(
    events: &mut Vec<(u64, Event)>,
    shift: u64,
    entry: Entry,
    place: u64,
) -> Result<(), AllocError>
    requires entry { IsEntry entry }
    requires shift { shift ≤ greatest_word }
    requires inside { place < choices entry }
    ensures { OnOk result (events.new.items ≡ events.old.items ++ entry_events shift entry place) }
{
    match entry {
        Entry::Once(times, event) => events.push((time_at(times, place) + shift, event))?,
        Entry::Every(period, count, event) => add_periodic(events, shift, period, count, event)?,
        Entry::Shift(_) => {}
    }
    Ok(())
}

// The events of member `number`, in the order of the lines.
fn chosen(
    alloc: Global,
    entries: &[Entry],
    members: u64,
    number: u64,
) -> Result<Vec<(u64, Event)>, AllocError>
    requires entries { All IsEntry entries.now }
    requires members { members ≡ members_of entries.now }
    requires inside { number < members }
    ensures { IfOk result (λ events. events.items ≡ chosen_events 0 entries.now (choice_of entries.now number)) }
{
    let mut events = Vec::new(alloc);
    let mut shift = 0;
    let mut below = members;
    let mut left = number;
    for entry in entries {
        below /= choices_of(*entry);
        let place = left / below;
        left %= below;
        add_entry(&mut events, shift, *entry, place)?;
        shift = shift_below(shift, *entry, place);
    }
    Ok(events)
}

/// The events of member `number`, by time; those at the same time are in the order of their lines.
pub(crate) fn events(
    alloc: Global,
    entries: &[Entry],
    members: u64,
    number: u64,
) -> Result<Vec<(u64, Event)>, AllocError>
    requires entries { All IsEntry entries.now }
    requires members { members ≡ members_of entries.now }
    requires inside { number < members }
    ensures { IfOk result (λ events. events.items ≡ sorted earlier (chosen_events 0 entries.now (choice_of entries.now number))) }
{
    let mut events = chosen(alloc, entries, members, number)?;
    events.sort_by_key(|event| event.0)?;
    Ok(events)
}

/// The tick file of events: one line for each.
pub(crate) fn text_of(alloc: Global, events: &[(u64, Event)]) -> Result<Vec<u8>, AllocError>
    ensures { IfOk result (λ text. text.items ≡ recorded events.now) }
{
    let mut text = Vec::new(alloc);
    for event in events {
        add_line(&mut text, event.0, event.1)?;
    }
    Ok(text)
}
