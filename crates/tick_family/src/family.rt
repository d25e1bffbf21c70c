//! A family, and its members.

ghost use Rattle.std.specs.Prelude.{◌≡◌, ◌<◌, ◌≤◌, IfOk};
ghost use Rattle.tick_family.specs.Laws.{IsTickFile};
ghost use Rattle.tick_family.specs.Members.{choice_of, members_of, member_text};
ghost use Rattle.tick_family.specs.Ranges.{chosen_times, ranges_in};
ghost use Rattle.tick_family.specs.Reading.{most_members};
ghost use Rattle.tick_family.specs.Inside.{IsFamily};

use crate::entry::Entry;
use crate::member::{events, text_of};
use crate::ranges::{ranges_of, times_of};
use crate::times::Times;
use std::alloc::{AllocError, Global};
use std::marker::Model;

/// A family of tick files. Its members are numbered from 0; the last range runs fastest.
#[derive(Drop)]
pub struct Family {
    entries: Vec<Entry>,
    members: u64,
}

impl Model for Family {
    ghost use Rattle.std.specs.Prelude.{List};
    ghost use Rattle.tick_family.specs.declared.entry.Entry.{Entry as EntryLem};
    ghost use Rattle.tick_family.specs.Inside.{IsFamily};

    ghost Value = { List EntryLem };

    ghost view = { λ f. f.entries.items };

    ghost invariant = { λ f. IsFamily f.entries.items f.members };
}

impl Family {
    // The family of these entries, which have so many members.
    pub(crate) fn new(entries: Vec<Entry>, members: u64) -> Family
        requires { IsFamily entries.items members }
        ensures { result ≡ entries.items }
    {
        Family { entries, members }
    }

    /// How many members the family has, from 1 to 10^12.
    pub fn members(&self) -> u64
        ensures { result ≡ members_of self.now }
    {
        self.members
    }

    /// The ranges: the times of each line that has more than one, in the order of the lines.
    pub fn ranges(&self, alloc: Global) -> Result<Vec<Times>, AllocError>
        ensures { IfOk result (λ ranges. ranges.items ≡ ranges_in self.now) }
    {
        ranges_of(alloc, &self.entries)
    }

    /// The times that member `number` chooses, one from each range.
    pub fn times(&self, alloc: Global, number: u64) -> Result<Vec<u64>, AllocError>
        requires { number < members_of self.now }
        ensures { IfOk result (λ times. times.items ≡ chosen_times self.now (choice_of self.now number)) }
    {
        times_of(alloc, &self.entries, self.members, number)
    }

    /// The tick file of member `number`.
    pub fn text(&self, alloc: Global, number: u64) -> Result<Vec<u8>, AllocError>
        requires { number < members_of self.now }
        ensures value { IfOk result (λ text. text.items ≡ member_text self.now number) }
        ensures file { IsTickFile self.now number }
    {
        let events = events(alloc, &self.entries, self.members, number)?;
        text_of(alloc, &events)
    }
}
