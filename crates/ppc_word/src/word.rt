//! A word and the pieces of its form.

ghost use Rattle.std.specs.Prelude.{◌≡◌, ◌≤◌, ◌-◌, ◌/◌, ◌%◌, ◌^◌, ◌++◌, ◌&&◌, IsTrue, replicate, nat_eq, bit_and};
ghost use Rattle.ppc_word.specs.Words.{whole, parts, fields, fit, joined};
ghost use Rattle.ppc_word.specs.Rules.{allowed};
ghost use Rattle.ppc_word.specs.Patterns.{eight, pieces_of};

use crate::pattern::Pattern;
use crate::piece::Piece;
use crate::rule::is_allowed;

/// The number in `width` bits of a word, above its lowest `at` bits.
#[inline(always)]
pub(crate) fn part(word: u32, at: u8, width: u8) -> u32
    requires place { at ≤ 32 }
    requires size { width ≤ 32 }
    ensures { result ≡ word / 2 ^ at % 2 ^ width }
{
    ((word as u64 >> at) % (1 << width)) as u32
}

/// Whether a word has the fixed bits of a pattern and meets its rule.
#[inline(always)]
pub(crate) fn fits(pattern: &Pattern, word: u32) -> bool
    ensures { result ≡ (nat_eq (bit_and word pattern.now.mask) pattern.now.held && allowed pattern.now.rule word) }
{
    word & pattern.mask == pattern.held && is_allowed(pattern.rule, word)
}

// The pieces of a pattern, then empty ones.
fn eight_pieces(pattern: &Pattern) -> [Piece; 8]
    ensures { result ≡ eight pattern.now }
{
    [
        pattern.p0, pattern.p1, pattern.p2, pattern.p3, pattern.p4, pattern.p5, pattern.p6,
        pattern.p7,
    ]
}

/// The fields of a word of this pattern, in order. The unused places are 0.
pub(crate) fn read(pattern: &Pattern, word: u32) -> [u32; 6]
    requires count { pattern.now.count ≤ 8 }
    requires form { IsTrue (whole (pieces_of pattern.now)) }
    ensures { result ≡ parts (pieces_of pattern.now) word ++ replicate (6 - fields (pieces_of pattern.now)) 0 }
{
    read_pieces(&eight_pieces(pattern)[..pattern.count as usize], word)
}

fn read_pieces(pieces: &[Piece], word: u32) -> [u32; 6]
    requires { IsTrue (whole pieces.now) }
    ensures { result ≡ parts pieces.now word ++ replicate (6 - fields pieces.now) 0 }
{
    let mut rest = 32;
    let mut count = 0;
    let mut found = [0; 6];
    for piece in pieces {
        match *piece {
            Piece::Fixed(width, _) => {
                rest -= width;
            }
            Piece::Field(width) => {
                rest -= width;
                found[count] = part(word, rest, width);
                count += 1;
            }
        }
    }
    found
}

/// The word of this pattern with these fields.
pub(crate) fn write(pattern: &Pattern, values: &[u32; 6]) -> u32
    requires count { pattern.now.count ≤ 8 }
    requires form { IsTrue (whole (pieces_of pattern.now)) }
    requires fields { IsTrue (fit (pieces_of pattern.now) values.now) }
    ensures { result ≡ joined (pieces_of pattern.now) values.now }
{
    write_pieces(&eight_pieces(pattern)[..pattern.count as usize], values)
}

fn write_pieces(pieces: &[Piece], values: &[u32; 6]) -> u32
    requires form { IsTrue (whole pieces.now) }
    requires fields { IsTrue (fit pieces.now values.now) }
    ensures { result ≡ joined pieces.now values.now }
{
    let mut rest = 32;
    let mut count = 0;
    let mut word = 0;
    for piece in pieces {
        match *piece {
            Piece::Fixed(width, number) => {
                rest -= width;
                word += (number as u64) << rest;
            }
            Piece::Field(width) => {
                rest -= width;
                word += (values[count] as u64) << rest;
                count += 1;
            }
        }
    }
    word as u32
}
