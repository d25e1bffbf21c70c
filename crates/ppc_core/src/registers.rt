//! The single registers (Book I, 2.3 and 3.2).

ghost use Rattle.std.specs.Prelude.{◌≡◌, ◌<◌};
ghost use Rattle.ppc_core.specs.Fields.{rt, ra};
ghost use Rattle.ppc_core.specs.Registers as register;

use crate::operands;
use crate::words::{set_bits, signed_of};
use ppc_word::{Decoded, bits_of, fields};
use wind_base::Regs;

/// General register `n`.
#[tactic(auto, unfolding(crate::specs::Registers::gpr))]
#[inline(always)]
pub fn read(regs: &Regs, n: u32) -> u32
    requires { n < 32 }
    ensures { result ≡ register.gpr regs.now n }
{
    regs.gpr[n as usize]
}

/// Sets general register `n`.
#[tactic(auto, unfolding(crate::specs::Registers::with_gpr))]
#[inline(always)]
pub fn write(n: u32, value: u32, regs: &mut Regs)
    requires { n < 32 }
    ensures { regs.new ≡ register.with_gpr regs.old n value }
{
    regs.gpr[n as usize] = value;
}

/// (RS), the content of register RS.
#[inline(always)]
pub fn in_rs(regs: &Regs, insn: Decoded) -> u32
    ensures { result ≡ register.in_rs regs.now insn.word }
{
    read(regs, operands::rt(insn))
}

/// (RA), the content of register RA.
#[inline(always)]
pub fn in_ra(regs: &Regs, insn: Decoded) -> u32
    ensures { result ≡ register.in_ra regs.now insn.word }
{
    read(regs, operands::ra(insn))
}

/// (RB), the content of register RB.
#[inline(always)]
pub fn in_rb(regs: &Regs, insn: Decoded) -> u32
    ensures { result ≡ register.in_rb regs.now insn.word }
{
    read(regs, operands::rb(insn))
}

/// (RA|0): the content of register RA, or 0 if RA is register 0.
#[inline(always)]
pub fn in_ra_or_0(regs: &Regs, insn: Decoded) -> u32
    ensures { result ≡ register.in_ra_or_0 regs.now insn.word }
{
    if operands::ra(insn) == 0 {
        0
    } else {
        in_ra(regs, insn)
    }
}

/// SO of XER (Book I, 3.2.2).
#[tactic(auto, unfolding(crate::specs::Registers::so))]
#[inline(always)]
pub fn so(regs: &Regs) -> u32
    ensures is { result ≡ register.so regs.now }
    ensures below { result < 2 }
{
    bits_of(regs.xer, 0, 0)
}

/// CA of XER (Book I, 3.2.2).
#[tactic(auto, unfolding(crate::specs::Registers::ca))]
#[inline(always)]
pub fn ca(regs: &Regs) -> u32
    ensures is { result ≡ register.ca regs.now }
    ensures below { result < 2 }
{
    bits_of(regs.xer, 2, 2)
}

/// Sets CA.
#[tactic(auto, unfolding(crate::specs::Registers::with_ca))]
#[inline(always)]
pub fn set_ca(carry: u32, regs: &mut Regs)
    requires { carry < 2 }
    ensures { regs.new ≡ register.with_ca regs.old carry }
{
    regs.xer = set_bits(regs.xer, 2, 2, carry);
}

/// Sets OV to whether a result overflows, and SO if it does.
#[tactic(auto, unfolding(crate::specs::Registers::with_ov))]
#[inline(always)]
pub fn set_ov(overflow: bool, regs: &mut Regs)
    ensures { regs.new ≡ register.with_ov regs.old overflow }
{
    let bit = if overflow { 1 } else { 0 };
    let summary = so(regs).max(bit);
    regs.xer = set_bits(set_bits(regs.xer, 1, 1, bit), 0, 0, summary);
}

/// The result of a comparison as four bits: less, greater, equal, SO.
#[inline(always)]
pub fn order_of(less: bool, greater: bool, so: u32) -> u32
    requires { so < 2 }
    ensures is { result ≡ register.order less greater so }
    ensures below { result < 16 }
{
    let relation = if less {
        8
    } else if greater {
        4
    } else {
        2
    };
    relation + so
}

/// Sets CR field `n`.
#[tactic(auto, unfolding(crate::specs::Registers::with_cr_field))]
#[inline(always)]
pub fn set_cr_field(n: u32, value: u32, regs: &mut Regs)
    requires place { n < 8 }
    requires below { value < 16 }
    ensures { regs.new ≡ register.with_cr_field regs.old n value }
{
    regs.cr = set_bits(regs.cr, 4 * n as u8, 4 * n as u8 + 3, value);
}

/// Sets CR0 to the result of comparing a number, read as signed, with 0.
#[tactic(auto, unfolding(crate::specs::Registers::with_cr0))]
#[inline(always)]
pub fn set_cr0(value: u32, regs: &mut Regs)
    ensures { regs.new ≡ register.with_cr0 regs.old value }
{
    let signed = signed_of(value);
    set_cr_field(0, order_of(signed < 0, 0 < signed, so(regs)), regs);
}

/// Sets register `n` to a result, and CR0 to its comparison with 0.
#[tactic(auto, unfolding(crate::specs::Registers::with_recorded))]
#[inline(always)]
pub fn record(n: u32, value: u32, regs: &mut Regs)
    requires { n < 32 }
    ensures { regs.new ≡ register.with_recorded regs.old n value }
{
    write(n, value, regs);
    set_cr0(value, regs);
}

/// Sets register `n` to a result, and with Rc, CR0 to its comparison with 0.
#[tactic(auto, unfolding(crate::specs::Registers::with_result))]
#[inline(always)]
fn set_result(n: u32, value: u32, regs: &mut Regs, insn: Decoded)
    requires { n < 32 }
    ensures { regs.new ≡ register.with_result regs.old insn.word n value }
{
    if fields::rc(insn.word) {
        record(n, value, regs);
    } else {
        write(n, value, regs);
    }
}

/// Sets RT to a result, and with Rc, CR0 to its comparison with 0.
#[inline(always)]
pub fn set_rt(value: u32, regs: &mut Regs, insn: Decoded)
    ensures { regs.new ≡ register.with_result regs.old insn.word (rt insn.word) value }
{
    set_result(operands::rt(insn), value, regs, insn);
}

/// Sets RA to a result, and with Rc, CR0 to its comparison with 0.
#[inline(always)]
pub fn set_ra(value: u32, regs: &mut Regs, insn: Decoded)
    ensures { regs.new ≡ register.with_result regs.old insn.word (ra insn.word) value }
{
    set_result(operands::ra(insn), value, regs, insn);
}

/// Sets RT to a result, and with Rc, CR0 to its comparison with 0. With OE, first records in OV and
/// SO whether the result overflows.
#[tactic(auto, unfolding(crate::specs::Registers::with_checked_result))]
#[inline(always)]
pub fn set_checked_result(value: u32, overflow: bool, regs: &mut Regs, insn: Decoded)
    ensures { regs.new ≡ register.with_checked_result regs.old insn.word value overflow }
{
    if fields::oe(insn.word) {
        set_ov(overflow, regs);
    }
    set_rt(value, regs, insn);
}

/// Sets the program counter to the next instruction.
#[tactic(auto, unfolding(crate::specs::Registers::next))]
#[inline(always)]
pub fn step(regs: &mut Regs)
    ensures { regs.new ≡ register.next regs.old }
{
    regs.pc = regs.pc.wrapping_add(4);
}
