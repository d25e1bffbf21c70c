//! The fields of packets.

ghost use Rattle.std.specs.Prelude.{◌≡◌, ◌<◌, length, IfSome};
ghost use Rattle.debug_packet.specs.Fields.{place_of as place_of_lem, range_of as range_of_lem, two_numbers as two_numbers_lem};

use crate::packet::Range;
use debug_wire::hex_number;

/// How many bytes come before the first one that is this byte.
pub(crate) fn place_of(byte: u8, text: &[u8]) -> Option<usize>
    ensures is { result ≡ place_of_lem byte text.now }
    ensures within { IfSome result (λ k. k < length text.now) }
{
    text.iter().position(|b| *b == byte)
}

/// Two numbers, with a comma between them.
#[tactic(auto, unfolding(crate::specs::Fields::two_numbers))]
pub(crate) fn two_numbers(text: &[u8]) -> Option<(u64, u64)>
    ensures { result ≡ two_numbers_lem text.now }
{
    let comma = place_of(b',', text)?;
    let first = hex_number(&text[..comma])?;
    let second = hex_number(&text[comma + 1..])?;
    Some((first, second))
}

/// An address or offset, and a count of bytes.
#[tactic(auto, unfolding(crate::specs::Fields::range_of))]
pub(crate) fn range_of(text: &[u8]) -> Option<Range>
    ensures { result ≡ range_of_lem text.now }
{
    let (at, count) = two_numbers(text)?;
    Some(Range { at, count })
}
