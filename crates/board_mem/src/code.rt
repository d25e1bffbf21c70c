//! The decoded words of the pages that instructions were executed in.

ghost use Rattle.std.specs.Prelude.{◌≡◌, ◌≢◌, ◌+◌, ◌-◌, ◌*◌, ◌%◌, ◌/◌, ◌<◌, ◌≤◌, ◌⊎◌, ℕ, List, IfOk, IfSome, length, take, drop, slice_index, slice_index_or, vec_capacity, replicate};
ghost use Rattle.board_mem.specs.Code.{page_words, most_code_slots, Agrees, AreDecoded, AreSlots, IsFree, IsGiven, SameElsewhere};
ghost use Rattle.board_mem.specs.Pages.{page_of, page_bytes};
ghost use Rattle.ppc_word.specs.declared.decoded.Decoded.{Decoded};
ghost use Rattle.ppc_word.specs.declared.op.Op.TheVariants as ops;

use crate::store::{PAGE, repeated};
use ppc_word::{Decoded, Op, empty};
use std::alloc::Global;
use wind_base::NoMemory;

/// The number of words in a page.
pub const WORDS: usize = PAGE / 4;

// The greatest number of slots.
const SLOTS: usize = 64;

/// The decoded words of at most 64 pages of code. Each of them has a slot, with an entry for each
/// word. The room for all slots is reserved at the start, and touched as slots are given.
#[derive(Drop)]
pub(crate) struct CodePages {
    // for each page of addresses, 0, or one more than its slot
    pub(crate) slots: Vec<u8>,
    // for each slot, its page
    pub(crate) owners: Vec<u32>,
    // the number of slots that were given
    pub(crate) used: usize,
    // the slot that is given again next, once all are given
    pub(crate) oldest: usize,
    // the entries, slot by slot
    pub(crate) entries: Vec<Decoded>,
}

// Empties the entries from one index to another.
fn empty_entries(entries: &mut [Decoded], from: usize, to: usize)
    requires order { from ≤ to }
    requires within { to ≤ length entries.old }
    ensures emptied { (i : ℕ) (d : Decoded) → from ≤ i → i < to → (slice_index_or entries.new i d).op ≡ ops.Empty }
    ensures others { (i : ℕ) (d : Decoded) → (i < from) ⊎ (to ≤ i)
        → slice_index_or entries.new i d ≡ slice_index_or entries.old i d }
{
    for i in from..to {
        entries[i] = empty();
    }
}

/// The entries of the slot before this number.
#[inline(always)]
pub(crate) fn entries_of(entries: &[Decoded], number: usize) -> &[Decoded]
    requires some { 0 < number }
    requires within { page_words * number ≤ length entries.now }
    ensures { result.now ≡ take page_words (drop (page_words * (number - 1)) entries.now) }
{
    let start = (number - 1) * WORDS;
    &entries[start..start + WORDS]
}

// Takes a page's slot, if there is such a page.
fn take_slot(slots: &mut [u8], page: usize)
    ensures taken { slice_index slots.new page ≡ 0 }
    ensures others { (other : ℕ) → other ≢ page → slice_index slots.new other ≡ slice_index slots.old other }
{
    if page < slots.len() {
        slots[page] = 0;
    }
}

impl CodePages {
    /// No slot is given, for this number of pages.
    pub(crate) fn new(alloc: Global, pages: usize) -> Result<CodePages, NoMemory>
        ensures slots { IfOk result (λ c. c.slots.items ≡ replicate pages 0) }
        ensures kept { IfOk result (λ c. AreSlots c.slots.items c.owners.items c.entries.items c.used c.oldest
            (vec_capacity c.entries)) }
    {
        Ok(CodePages {
            slots: repeated(alloc, 0, pages)?,
            owners: repeated(alloc, 0, SLOTS)?,
            used: 0,
            oldest: 0,
            entries: Vec::with_capacity(alloc, SLOTS * WORDS)?,
        })
    }

    /// Empties the entries of the words that the `n` bytes from an address on are in. They are all
    /// in one page.
    pub(crate) fn drop_words(&mut self, at: usize, n: usize)
        requires some { 0 < n }
        requires page { at % page_bytes + n ≤ page_bytes }
        requires there { page_of at < length self.old.slots.items }
        requires slots { AreSlots self.old.slots.items self.old.owners.items self.old.entries.items self.old.used
            self.old.oldest (vec_capacity self.old.entries) }
        ensures same { self.new.slots.items ≡ self.old.slots.items }
        ensures slots { AreSlots self.new.slots.items self.new.owners.items self.new.entries.items self.new.used
            self.new.oldest (vec_capacity self.new.entries) }
        ensures decoded { (before after : List ℕ) → SameElsewhere before after at n
            → AreDecoded self.old.slots.items self.old.entries.items before
            → AreDecoded self.new.slots.items self.new.entries.items after }
    {
        let number = self.slots[at / PAGE] as usize;
        if number == 0 {
            return;
        }
        let first = (number - 1) * WORDS + at % PAGE / 4;
        let last = (number - 1) * WORDS + (at % PAGE + n - 1) / 4;
        empty_entries(&mut self.entries, first, last + 1);
    }

    /// The index of the entry of the word that the byte at an address is in. None if the entry is
    /// empty, or if the page has no slot.
    #[inline(always)]
    pub(crate) fn entry_at(&self, at: usize) -> Option<usize>
        requires there { page_of at < length self.now.slots.items }
        requires slots { AreSlots self.now.slots.items self.now.owners.items self.now.entries.items self.now.used
            self.now.oldest (vec_capacity self.now.entries) }
        ensures slot { IfSome result (λ i. (slot : ℕ) × (slice_index self.now.slots.items (page_of at) ≡ slot + 1)
            × (i ≡ page_words * slot + at % page_bytes / 4)) }
        ensures within { IfSome result (λ i. i < length self.now.entries.items) }
    {
        let number = self.slots[at / PAGE] as usize;
        if number == 0 {
            return None;
        }
        let place = (number - 1) * WORDS + at % PAGE / 4;
        if self.entries[place].op == Op::Empty {
            return None;
        }
        Some(place)
    }

    // Adds a free slot.
    fn add_slot(&mut self) -> usize
        requires left { self.old.used < most_code_slots }
        requires slots { AreSlots self.old.slots.items self.old.owners.items self.old.entries.items self.old.used
            self.old.oldest (vec_capacity self.old.entries) }
        ensures slots { AreSlots self.new.slots.items self.new.owners.items self.new.entries.items self.new.used
            self.new.oldest (vec_capacity self.new.entries) }
        ensures free { IsFree self.old.slots.items self.new.slots.items self.new.entries.items self.new.used result }
        ensures decoded { (bytes : List ℕ) → AreDecoded self.old.slots.items self.old.entries.items bytes
            → AreDecoded self.new.slots.items self.new.entries.items bytes }
    {
        let slot = self.used;
        self.used += 1;
        let Ok(()) = self.entries.resize(slot * WORDS + WORDS, empty()) else {
            unreachable!()
        };
        slot
    }

    // Takes the oldest slot from its page, and empties its entries.
    fn free_oldest(&mut self) -> usize
        requires all { self.old.used ≡ most_code_slots }
        requires slots { AreSlots self.old.slots.items self.old.owners.items self.old.entries.items self.old.used
            self.old.oldest (vec_capacity self.old.entries) }
        ensures slots { AreSlots self.new.slots.items self.new.owners.items self.new.entries.items self.new.used
            self.new.oldest (vec_capacity self.new.entries) }
        ensures free { IsFree self.old.slots.items self.new.slots.items self.new.entries.items self.new.used result }
        ensures decoded { (bytes : List ℕ) → AreDecoded self.old.slots.items self.old.entries.items bytes
            → AreDecoded self.new.slots.items self.new.entries.items bytes }
    {
        let slot = self.oldest;
        self.oldest = (slot + 1) % SLOTS;
        take_slot(&mut self.slots, self.owners[slot] as usize);
        empty_entries(&mut self.entries, slot * WORDS, slot * WORDS + WORDS);
        slot
    }

    // A free slot: a new one, or the oldest once all are given.
    fn free_slot(&mut self) -> usize
        requires slots { AreSlots self.old.slots.items self.old.owners.items self.old.entries.items self.old.used
            self.old.oldest (vec_capacity self.old.entries) }
        ensures slots { AreSlots self.new.slots.items self.new.owners.items self.new.entries.items self.new.used
            self.new.oldest (vec_capacity self.new.entries) }
        ensures free { IsFree self.old.slots.items self.new.slots.items self.new.entries.items self.new.used result }
        ensures decoded { (bytes : List ℕ) → AreDecoded self.old.slots.items self.old.entries.items bytes
            → AreDecoded self.new.slots.items self.new.entries.items bytes }
    {
        if self.used < SLOTS {
            return self.add_slot();
        }
        self.free_oldest()
    }

    // Gives a page a slot.
    #[cold]
    #[inline(never)]
    fn give_slot(&mut self, page: u32) -> usize
        requires there { page < length self.old.slots.items }
        requires slots { AreSlots self.old.slots.items self.old.owners.items self.old.entries.items self.old.used
            self.old.oldest (vec_capacity self.old.entries) }
        ensures slots { AreSlots self.new.slots.items self.new.owners.items self.new.entries.items self.new.used
            self.new.oldest (vec_capacity self.new.entries) }
        ensures given { IsGiven self.old.slots.items self.new.slots.items page result }
        ensures decoded { (bytes : List ℕ) → AreDecoded self.old.slots.items self.old.entries.items bytes
            → AreDecoded self.new.slots.items self.new.entries.items bytes }
    {
        let slot = self.free_slot();
        self.owners[slot] = page;
        self.slots[page as usize] = slot as u8 + 1;
        slot
    }

    // The slot of a page, which is given one if it has none.
    #[inline(always)]
    fn slot_for(&mut self, page: u32) -> usize
        requires there { page < length self.old.slots.items }
        requires slots { AreSlots self.old.slots.items self.old.owners.items self.old.entries.items self.old.used
            self.old.oldest (vec_capacity self.old.entries) }
        ensures slots { AreSlots self.new.slots.items self.new.owners.items self.new.entries.items self.new.used
            self.new.oldest (vec_capacity self.new.entries) }
        ensures given { IsGiven self.old.slots.items self.new.slots.items page result }
        ensures decoded { (bytes : List ℕ) → AreDecoded self.old.slots.items self.old.entries.items bytes
            → AreDecoded self.new.slots.items self.new.entries.items bytes }
    {
        let number = self.slots[page as usize] as usize;
        if number == 0 {
            return self.give_slot(page);
        }
        number - 1
    }

    /// Keeps the decoded word at the `k`th word of a page.
    #[inline(always)]
    pub(crate) fn keep(&mut self, page: u32, k: usize, decoded: Decoded)
        requires there { page < length self.old.slots.items }
        requires word { k < page_words }
        requires slots { AreSlots self.old.slots.items self.old.owners.items self.old.entries.items self.old.used
            self.old.oldest (vec_capacity self.old.entries) }
        ensures slots { AreSlots self.new.slots.items self.new.owners.items self.new.entries.items self.new.used
            self.new.oldest (vec_capacity self.new.entries) }
        ensures kept { (slot : ℕ) × IsGiven self.old.slots.items self.new.slots.items page slot
            × ((d : Decoded) → slice_index_or self.new.entries.items (page_words * slot + k) d ≡ decoded) }
        ensures decoded { (bytes : List ℕ) → Agrees decoded bytes (page_bytes * page + 4 * k)
            → AreDecoded self.old.slots.items self.old.entries.items bytes
            → AreDecoded self.new.slots.items self.new.entries.items bytes }
    {
        let slot = self.slot_for(page);
        self.entries[slot * WORDS + k] = decoded;
    }
}
