//! Words and their bits. Bit 0 is the most significant (Book I, 1.3.2).

ghost use Rattle.std.specs.Prelude.{◌≡◌, ◌<◌, ◌≤◌, ◌+◌, ◌-◌, ◌^◌};
ghost use Rattle.ppc_core.specs.Words.{with_bits, signed, fits};

/// The word with another number in bits `first` to `last`.
#[inline(always)]
pub fn set_bits(word: u32, first: u8, last: u8, value: u32) -> u32
    requires order { first ≤ last }
    requires end { last < 32 }
    requires below { value < 2 ^ (last + 1 - first) }
    ensures { result ≡ with_bits word first last value }
{
    let word = word as u64;
    let above = word >> (32 - first) << (32 - first);
    (above + ((value as u64) << (31 - last)) + word % (1 << (31 - last))) as u32
}

/// A word, read as signed.
#[inline(always)]
pub fn signed_of(word: u32) -> i64
    ensures { result ≡ signed word }
{
    i64::from(word.cast_signed())
}

/// Whether a number is a word, read as signed.
#[inline(always)]
pub fn is_word(number: i64) -> bool
    ensures { result ≡ fits number }
{
    -0x8000_0000 <= number && number < 0x8000_0000
}
