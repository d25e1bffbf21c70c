//! Masks and shifts (Book I, 3.3.12).

ghost use Rattle.std.specs.Prelude.{◌≡◌, ◌<◌};
ghost use Rattle.ppc_core.specs.Logic as logic;

use crate::registers;
use ppc_word::{Decoded, bits_of, fields, ones_between};
use wind_base::Regs;

/// The mask from MB to ME.
#[inline(always)]
pub fn mask_of(insn: Decoded) -> u32
    ensures { result ≡ logic.mask_of insn.word }
{
    ones_between(fields::mb(insn.word), fields::me(insn.word))
}

/// (RS) rotated left by `n` bits.
#[inline(always)]
pub fn rotate(n: u32, regs: &Regs, insn: Decoded) -> u32
    ensures { result ≡ logic.rotated regs.now insn.word n }
{
    registers::in_rs(regs, insn).rotate_left(n)
}

/// The bits of `x` where the mask has ones, and those of `y` where it has zeros.
#[inline(always)]
pub fn merge(mask: u32, x: u32, y: u32) -> u32
    ensures { result ≡ logic.merged mask x y }
{
    (x & mask) | (y & !mask)
}

/// The distance of a shift by (RB): its last six bits.
#[inline(always)]
pub fn distance_of(regs: &Regs, insn: Decoded) -> u32
    ensures is { result ≡ logic.distance regs.now insn.word }
    ensures below { result < 64 }
{
    bits_of(registers::in_rb(regs, insn), 26, 31)
}

/// A word shifted left by `n` bits.
#[inline(always)]
pub fn shift_left(s: u32, n: u32) -> u32
    ensures { result ≡ logic.shifted_left s n }
{
    if n < 32 { s << n } else { 0 }
}

/// A word shifted right by `n` bits, with zeros shifted in.
#[inline(always)]
pub fn shift_right(s: u32, n: u32) -> u32
    ensures { result ≡ logic.shifted_right s n }
{
    if n < 32 { s >> n } else { 0 }
}

/// A word shifted right by `n` bits, with copies of the sign shifted in.
#[inline(always)]
fn shift_signed(s: u32, n: u32) -> u32
    ensures { result ≡ logic.shifted_signed s n }
{
    let k = n.min(31);
    let sign = if s >= 0x8000_0000 {
        0x1_0000_0000 - (1u64 << (32 - k))
    } else {
        0
    };
    ((s >> k) as u64 + sign) as u32
}

/// Whether a negative word loses a 1 bit when it is shifted right by `n`.
#[inline(always)]
fn loses_one(s: u32, n: u32) -> bool
    requires { n < 64 }
    ensures { result ≡ logic.loses_one s n }
{
    s >= 0x8000_0000 && s as u64 % (1 << n) != 0
}

/// Sets RA to (RS) shifted right by `n` with its sign; Rc is respected. CA says whether a negative
/// word lost a 1 bit.
#[tactic(auto, unfolding(crate::specs::Logic::with_signed_shift))]
#[inline(always)]
pub fn set_signed_shift(n: u32, regs: &mut Regs, insn: Decoded)
    requires { n < 64 }
    ensures { regs.new ≡ logic.with_signed_shift regs.old insn.word n }
{
    let s = registers::in_rs(regs, insn);
    let carry = if loses_one(s, n) { 1 } else { 0 };
    registers::set_ca(carry, regs);
    registers::set_ra(shift_signed(s, n), regs, insn);
}
