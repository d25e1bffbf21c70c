//! Sums, products and quotients (Book I, 3.3.8).

ghost use Rattle.std.specs.Prelude.{◌≡◌, ◌<◌, ◌*ℤ◌};
ghost use Rattle.ppc_core.specs.Words.{signed};
ghost use Rattle.ppc_core.specs.Arithmetic as arithmetic;

use crate::words::{is_word, signed_of};
use crate::{operands, registers};
use ppc_word::Decoded;
use wind_base::Regs;

/// The low 32 bits of the sum of two words and a carry.
#[inline(always)]
pub fn sum_of(x: u32, y: u32, c: u32) -> u32
    ensures { result ≡ arithmetic.sum x y c }
{
    ((x as u64 + y as u64 + c as u64) % 0x1_0000_0000) as u32
}

/// The carry out of that sum: 0 or 1.
#[inline(always)]
fn carry_of(x: u32, y: u32, c: u32) -> u32
    requires { c < 2 }
    ensures is { result ≡ arithmetic.carry x y c }
    ensures below { result < 2 }
{
    ((x as u64 + y as u64 + c as u64) / 0x1_0000_0000) as u32
}

/// Whether that sum, read as signed, overflows a word.
#[inline(always)]
fn overflows(x: u32, y: u32, c: u32) -> bool
    requires { c < 2 }
    ensures { result ≡ arithmetic.sum_overflows x y c }
{
    !is_word(signed_of(x) + signed_of(y) + i64::from(c))
}

/// Sets RT to a sum, and CA to its carry.
#[tactic(auto, unfolding(crate::specs::Arithmetic::with_carrying))]
#[inline(always)]
pub fn set_carrying(x: u32, y: u32, c: u32, regs: &mut Regs, insn: Decoded)
    requires { c < 2 }
    ensures { regs.new ≡ arithmetic.with_carrying regs.old insn.word x y c }
{
    registers::set_ca(carry_of(x, y, c), regs);
    registers::write(operands::rt(insn), sum_of(x, y, c), regs);
}

/// Sets RT to a sum; OE and Rc are respected.
#[tactic(auto, unfolding(crate::specs::Arithmetic::with_sum))]
#[inline(always)]
pub fn set_sum(x: u32, y: u32, c: u32, regs: &mut Regs, insn: Decoded)
    requires { c < 2 }
    ensures { regs.new ≡ arithmetic.with_sum regs.old insn.word x y c }
{
    registers::set_checked_result(sum_of(x, y, c), overflows(x, y, c), regs, insn);
}

/// Sets RT to a sum and CA to its carry; OE and Rc are respected.
#[tactic(auto, unfolding(crate::specs::Arithmetic::with_sum_carrying))]
#[inline(always)]
pub fn set_sum_carrying(x: u32, y: u32, c: u32, regs: &mut Regs, insn: Decoded)
    requires { c < 2 }
    ensures { regs.new ≡ arithmetic.with_sum_carrying regs.old insn.word x y c }
{
    registers::set_ca(carry_of(x, y, c), regs);
    set_sum(x, y, c, regs, insn);
}

/// The product of two words, read as signed.
#[inline(always)]
fn multiply(x: u32, y: u32) -> i64
    ensures { result ≡ signed x *ℤ signed y }
{
    signed_of(x) * signed_of(y)
}

/// The same, as a 64-bit number.
#[inline(always)]
fn signed_bits(x: u32, y: u32) -> u64
    ensures { result ≡ arithmetic.signed_product x y }
{
    multiply(x, y).cast_unsigned()
}

/// The low word of the product of two words, read as signed.
#[inline(always)]
pub fn low_signed(x: u32, y: u32) -> u32
    ensures { result ≡ arithmetic.low_signed x y }
{
    (signed_bits(x, y) % 0x1_0000_0000) as u32
}

/// The high word of the product of two words, read as signed.
#[inline(always)]
pub fn high_signed(x: u32, y: u32) -> u32
    ensures { result ≡ arithmetic.high_signed x y }
{
    (signed_bits(x, y) / 0x1_0000_0000) as u32
}

/// The high word of the product of two words, read as unsigned.
#[inline(always)]
pub fn high_unsigned(x: u32, y: u32) -> u32
    ensures { result ≡ arithmetic.high_unsigned x y }
{
    ((x as u64 * y as u64) / 0x1_0000_0000) as u32
}

/// Whether the product of two words, read as signed, overflows a word.
#[inline(always)]
fn product_overflows(x: u32, y: u32) -> bool
    ensures { result ≡ arithmetic.product_overflows x y }
{
    !is_word(multiply(x, y))
}

/// Sets RT to the low word of a product; OE and Rc are respected.
#[inline(always)]
pub fn set_product(x: u32, y: u32, regs: &mut Regs, insn: Decoded)
    ensures { regs.new ≡ arithmetic.with_product regs.old insn.word x y }
{
    registers::set_checked_result(low_signed(x, y), product_overflows(x, y), regs, insn);
}

/// Sets RT to an unsigned quotient; OE and Rc are respected. A quotient by 0 is 0, and overflows.
#[inline(always)]
pub fn set_quotient(x: u32, y: u32, regs: &mut Regs, insn: Decoded)
    ensures { regs.new ≡ arithmetic.with_quotient regs.old insn.word x y }
{
    let value = if y == 0 { 0 } else { x / y };
    registers::set_checked_result(value, y == 0, regs, insn);
}

/// Whether two words, read as signed, have no quotient that fits a word.
#[inline(always)]
fn has_no_quotient(x: u32, y: u32) -> bool
    ensures { result ≡ arithmetic.has_no_quotient x y }
{
    y == 0 || (x == 0x8000_0000 && y == 0xffff_ffff)
}

/// The quotient of two words, read as signed. 0 if there is none.
#[inline(always)]
fn signed_quotient(x: u32, y: u32) -> u32
    ensures { result ≡ arithmetic.signed_quotient x y }
{
    if has_no_quotient(x, y) {
        return 0;
    }
    (x.cast_signed() / y.cast_signed()).cast_unsigned()
}

/// Sets RT to the quotient of two words, read as signed; OE and Rc are respected.
#[inline(always)]
pub fn set_signed_quotient(x: u32, y: u32, regs: &mut Regs, insn: Decoded)
    ensures { regs.new ≡ arithmetic.with_signed_quotient regs.old insn.word x y }
{
    registers::set_checked_result(signed_quotient(x, y), has_no_quotient(x, y), regs, insn);
}
