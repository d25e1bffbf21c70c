//! Comparisons, traps, the condition register and special registers.

ghost use Rattle.std.specs.Prelude.{◌≡◌, ◌<◌, ◌&&◌, ◌==◌};
ghost use Rattle.ppc_core.specs.Words.{bits};
ghost use Rattle.ppc_core.specs.Conditions as condition;

use crate::words::{set_bits, signed_of};
use crate::{operands, registers};
use ppc_word::{Decoded, bits_of, fields};
use wind_base::Regs;

/// Sets CR field BF to the result of a signed comparison of two words.
#[tactic(auto, unfolding(crate::specs::Conditions::with_signed_order))]
#[inline(always)]
pub fn compare_signed(x: u32, y: u32, regs: &mut Regs, insn: Decoded)
    ensures { regs.new ≡ condition.with_signed_order regs.old insn.word x y }
{
    let (p, q) = (signed_of(x), signed_of(y));
    let order = registers::order_of(p < q, q < p, registers::so(regs));
    registers::set_cr_field(fields::bf(insn.word), order, regs);
}

/// Sets CR field BF to the result of an unsigned comparison of two words.
#[tactic(auto, unfolding(crate::specs::Conditions::with_order))]
#[inline(always)]
pub fn compare(x: u32, y: u32, regs: &mut Regs, insn: Decoded)
    ensures { regs.new ≡ condition.with_order regs.old insn.word x y }
{
    let order = registers::order_of(x < y, y < x, registers::so(regs));
    registers::set_cr_field(fields::bf(insn.word), order, regs);
}

/// Whether a bit of TO is set and its relation holds.
#[inline(always)]
fn holds(insn: Decoded, at: u8, relation: bool) -> bool
    requires { at < 32 }
    ensures { result ≡ (bits insn.word at at == 1 && relation) }
{
    bits_of(insn.word, at, at) == 1 && relation
}

/// Whether a bit of TO is set and its relation holds for two words.
#[tactic(auto, unfolding(crate::specs::Conditions::traps))]
#[inline(always)]
pub fn is_trapped(x: u32, y: u32, insn: Decoded) -> bool
    ensures { result ≡ condition.traps insn.word x y }
{
    let (p, q) = (signed_of(x), signed_of(y));
    let less = holds(insn, 6, p < q);
    let greater = holds(insn, 7, q < p);
    let equal = holds(insn, 8, x == y);
    let below = holds(insn, 9, x < y);
    let above = holds(insn, 10, y < x);
    less | greater | equal | below | above
}

/// CR bit BA.
#[inline(always)]
pub fn in_ba(regs: &Regs, insn: Decoded) -> u32
    ensures is { result ≡ condition.in_ba regs.now insn.word }
    ensures below { result < 2 }
{
    let n = operands::ra(insn) as u8;
    bits_of(regs.cr, n, n)
}

/// CR bit BB.
#[inline(always)]
pub fn in_bb(regs: &Regs, insn: Decoded) -> u32
    ensures is { result ≡ condition.in_bb regs.now insn.word }
    ensures below { result < 2 }
{
    let n = operands::rb(insn) as u8;
    bits_of(regs.cr, n, n)
}

/// The other bit: 1 for 0, 0 for 1.
#[inline(always)]
pub fn invert(bit: u32) -> u32
    requires { bit < 2 }
    ensures is { result ≡ condition.inverted bit }
    ensures below { result < 2 }
{
    1 - bit
}

/// Sets CR bit BT.
#[tactic(auto, unfolding(crate::specs::Conditions::with_bt))]
#[inline(always)]
pub fn set_bt(value: u32, regs: &mut Regs, insn: Decoded)
    requires { value < 2 }
    ensures { regs.new ≡ condition.with_bt regs.old insn.word value }
{
    let n = operands::rt(insn) as u8;
    regs.cr = set_bits(regs.cr, n, n, value);
}

/// Field `n` of the condition register, from 0 to 7.
#[inline(always)]
pub fn cr_field(regs: &Regs, n: u32) -> u32
    requires { n < 8 }
    ensures is { result ≡ condition.cr_field regs.now n }
    ensures below { result < 16 }
{
    bits_of(regs.cr, 4 * n as u8, 4 * n as u8 + 3)
}

/// SO, OV and CA of XER, as a 3-bit number.
#[inline(always)]
pub fn flags(regs: &Regs) -> u32
    ensures is { result ≡ condition.flags regs.now }
    ensures below { result < 8 }
{
    bits_of(regs.xer, 0, 2)
}

/// The condition register after the fields named by FXM are taken from a word.
pub fn moved(cr: u32, s: u32, insn: Decoded) -> u32
    ensures { result ≡ condition.moved_fields cr s insn.word 8 }
{
    let mut made = cr;
    for k in 0..8u8 {
        if fields::fxm(insn.word, k) == 1 {
            made = set_bits(made, 4 * k, 4 * k + 3, bits_of(s, 4 * k, 4 * k + 3));
        }
    }
    made
}

/// The special register `n`: 1 is XER, 8 is LR, 9 is CTR.
#[inline(always)]
pub fn special(regs: &Regs, n: u32) -> u32
    ensures { result ≡ condition.special regs.now n }
{
    match n {
        1 => flags(regs) * 0x2000_0000,
        8 => regs.lr,
        _ => regs.ctr,
    }
}

/// Sets the special register `n`.
#[inline(always)]
pub fn set_special(n: u32, value: u32, regs: &mut Regs)
    ensures { regs.new ≡ condition.with_special regs.old n value }
{
    match n {
        1 => regs.xer = bits_of(value, 0, 2) * 0x2000_0000,
        8 => regs.lr = value,
        _ => regs.ctr = value,
    }
}
