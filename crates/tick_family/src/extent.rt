//! How far the entries of a family reach: its members, and its last member's tick file.

ghost use Rattle.std.specs.Prelude.{◌≡◌, ◌+◌, ◌-◌, ◌*◌, ◌<◌, ◌≤◌, IfOk, IfSome, IfNone};
ghost use Rattle.wind_base.specs.Limits.{greatest_word, longest_text_file};
ghost use Rattle.tick_family.specs.Members.{choices as choices_lem, shift_below as shift_below_lem, entry_events};
ghost use Rattle.tick_family.specs.Reading.{start, is_late as is_late_lem, last_events, text_length, grown as grown_lem, greatest, most_members};
ghost use Rattle.tick_family.specs.Inside.{IsEntry, IsWithin, fitting};

use crate::bytes::{fitting_length, line_length, periodic_length};
use crate::entry::Entry;
use crate::fault::Fault;
use crate::times::time_at;

// The most members of a family.
const MEMBERS: u64 = 1_000_000_000_000;

// The greatest time of a tick file.
const GREATEST_TIME: u64 = 4_294_967_295;

/// How far entries reach.
#[derive(Clone, Copy)]
pub(crate) struct Extent {
    /// How many members there are.
    pub members: u64,
    /// The shift below the entries in the last member, which chooses the greatest number of each
    /// range.
    pub shift: u64,
    /// The length in bytes of the last member's tick file.
    pub bytes: u64,
}

/// The extent of no entries.
pub(crate) fn no_entries() -> Extent
    ensures value { result ≡ start }
    ensures within { IsWithin result }
{
    Extent {
        members: 1,
        shift: 0,
        bytes: 0,
    }
}

/// How many numbers an entry can choose from.
pub(crate) fn choices(entry: Entry) -> u64
    requires { IsEntry entry }
    ensures value { result ≡ choices_lem entry }
    ensures some { 1 ≤ result }
{
    match entry {
        Entry::Once(times, _) | Entry::Shift(times) => times.count,
        Entry::Every(..) => 1,
    }
}

/// The shift below an entry that chooses number `place`.
pub(crate) fn shift_below(shift: u64, entry: Entry, place: u64) -> u64
    requires entry { IsEntry entry }
    requires shift { shift ≤ greatest_word }
    requires inside { place < choices_lem entry }
    ensures value { result ≡ shift_below_lem shift entry place }
    ensures fits { result ≤ greatest_word }
{
    match entry {
        Entry::Once(..) | Entry::Every(..) => shift,
        Entry::Shift(times) => time_at(times, place),
    }
}

// How many members there are with one more entry; `None` if over 10^12.
fn members_with(members: u64, entry: Entry) -> Option<u64>
    requires { IsEntry entry }
    ensures some { IfSome result (λ n. (n ≡ members * choices_lem entry) × (n ≤ most_members)) }
    ensures none { IfNone result (most_members < members * choices_lem entry) }
{
    match members.checked_mul(choices(entry)) {
        Some(members) if members <= MEMBERS => Some(members),
        _ => None,
    }
}

// Whether the entry's last event in the last member is over 4,294,967,295.
#[tactic(auto, using(crate::proofs::TextLemmas::product_small, crate::proofs::TextLemmas::late_every))]
fn is_late(shift: u64, entry: Entry) -> bool
    requires entry { IsEntry entry }
    requires shift { shift ≤ greatest_word }
    ensures { result ≡ is_late_lem (entry_events shift entry (greatest entry)) }
{
    match entry {
        Entry::Once(times, _) => time_at(times, times.count - 1) + shift > GREATEST_TIME,
        Entry::Every(period, count, _) => count * period + shift > GREATEST_TIME,
        Entry::Shift(_) => false,
    }
}

// The length of the last member's tick file with one more entry; `None` if over 1 MiB.
fn bytes_with(extent: Extent, entry: Entry) -> Option<u64>
    requires entry { IsEntry entry }
    requires within { IsWithin extent }
    ensures { result ≡ fitting (extent.bytes + text_length (last_events extent entry)) }
{
    match entry {
        Entry::Once(times, event) => {
            let time = time_at(times, times.count - 1) + extent.shift;
            fitting_length(extent.bytes + line_length(time, event))
        }
        Entry::Every(period, count, event) => {
            periodic_length(extent.bytes, extent.shift, period, count, event)
        }
        Entry::Shift(_) => Some(extent.bytes),
    }
}

/// The extent with one more entry, or why the entry is refused.
#[tactic(auto, unfolding(crate::specs::Reading::grown))]
pub(crate) fn grown(extent: Extent, entry: Entry) -> Result<Extent, Fault>
    requires entry { IsEntry entry }
    requires within { IsWithin extent }
    ensures value { result ≡ grown_lem extent entry }
    ensures within { IfOk result IsWithin }
{
    let Some(members) = members_with(extent.members, entry) else {
        return Err(Fault::TooManyMembers);
    };
    if is_late(extent.shift, entry) {
        return Err(Fault::TimeTooLate);
    }
    let Some(bytes) = bytes_with(extent, entry) else {
        return Err(Fault::TextTooLong);
    };
    let shift = shift_below(extent.shift, entry, choices(entry) - 1);
    Ok(Extent {
        members,
        shift,
        bytes,
    })
}
