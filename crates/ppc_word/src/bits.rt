//! Words and their bits. Bit 0 is the most significant (Book I, 1.3.2).

ghost use Rattle.std.specs.Prelude.{◌≡◌, ◌<◌, ◌≤◌, ◌+◌, ◌-◌, ◌^◌};
ghost use Rattle.ppc_word.specs.Bits.{bits, sign_extended, mask};

/// The number in bits `first` to `last` of a word.
#[inline(always)]
pub fn bits_of(word: u32, first: u8, last: u8) -> u32
    requires order { first ≤ last }
    requires end { last < 32 }
    ensures is { result ≡ bits word first last }
    ensures below { result < 2 ^ (last + 1 - first) }
{
    ((word as u64 >> (31 - last)) % (1 << (last + 1 - first))) as u32
}

/// A number of `width` bits, sign-extended to a word.
#[inline(always)]
pub fn extend_sign(width: u8, n: u32) -> u32
    requires some { 0 < width }
    requires most { width < 32 }
    requires below { n < 2 ^ width }
    ensures { result ≡ sign_extended width n }
{
    if n < 1 << (width - 1) {
        n
    } else {
        n + (0xffff_ffff - ((1 << width) - 1))
    }
}

/// A halfword, sign-extended to a word. It equals `extend_sign` at 16 bits, but takes one
/// instruction of the host.
#[inline(always)]
pub fn extend_half(n: u32) -> u32
    requires { n < 2 ^ 16 }
    ensures { result ≡ sign_extended 16 n }
{
    i32::from((n as u16).cast_signed()).cast_unsigned()
}

/// The word with ones in bits `first` to `last`, and zeros elsewhere. The bits wrap around from 31
/// to 0.
#[inline(always)]
pub fn ones_between(first: u32, last: u32) -> u32
    requires begin { first < 32 }
    requires end { last < 32 }
    ensures { result ≡ mask first last }
{
    let from = 1u64 << (32 - first);
    let to = 1u64 << (31 - last);
    if first <= last {
        (from - to) as u32
    } else {
        (0xffff_ffff - (to - from)) as u32
    }
}
