//! A bit map of the priorities that have a ready task.

ghost use Rattle.std.specs.Prelude.{◌≡◌, ◌<◌, ℕ, if◌then◌else◌};
ghost use Rattle.std.specs.Int.{bit_at};
ghost use Rattle.ready_queue.specs.Map.{priorities, IsMarked, IsLowest, IsFirstMarked};

use wind_base::limits::LEAST_URGENT;

/// The number of priorities.
pub(crate) const PRIORITIES: u32 = LEAST_URGENT + 1;

/// The number of bits of a word.
const BITS: u32 = 32;

/// The number of words in the map.
pub(crate) const WORDS: usize = 8;

// A bit for each priority: bit 0 of the first word is that of priority 0.
#[derive(Drop)]
pub(crate) struct PriorityMap {
    pub(crate) words: [u32; WORDS],
}

// A word with one bit set or cleared.
fn with_bit(word: u32, bit: u32, on: bool) -> u32
    requires { bit < 32 }
    ensures same { bit_at result bit ≡ (if on then 1 else 0) }
    ensures others { (other : ℕ) → other < 32 → (other ≡ bit → ⊥) → bit_at result other ≡ bit_at word other }
{
    let mask = 1 << bit;
    if on { word | mask } else { word & !mask }
}

// Sets the bit of a priority, or clears it.
pub(crate) fn mark(words: &mut [u32; WORDS], priority: u32, on: bool)
    requires { priority < priorities }
    ensures { IsMarked words.old words.new priority (if on then 1 else 0) }
{
    let place = (priority / BITS) as usize;
    words[place] = with_bit(words[place], priority % BITS, on);
}

// The lowest bit of a word that is set. None if the word is 0.
fn lowest(word: u32) -> Option<u32>
    ensures { IsLowest word result }
{
    if word == 0 {
        None
    } else {
        Some(word.trailing_zeros())
    }
}

// The least priority whose bit is set. None if no bit is set.
pub(crate) fn first(words: &[u32; WORDS]) -> Option<u32>
    ensures { IsFirstMarked words.now result }
{
    for (place, word) in words.iter().enumerate() {
        if let Some(bit) = lowest(*word) {
            return Some(place as u32 * BITS + bit);
        }
    }
    None
}
