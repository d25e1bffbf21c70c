//! Branches (Book I, 2.4.1).

ghost use Rattle.std.specs.Prelude.{◌≡◌};
ghost use Rattle.ppc_core.specs.Branches as branch;

use crate::operands;
use ppc_word::{Decoded, bits_of, fields};
use wind_base::Regs;

/// CTR, minus 1 if bit 2 of BO is 0.
#[inline(always)]
pub fn count(regs: &Regs, insn: Decoded) -> u32
    ensures { result ≡ branch.counted regs.now insn.word }
{
    if fields::bo(insn.word, 2) == 0 {
        regs.ctr.wrapping_add(0xffff_ffff)
    } else {
        regs.ctr
    }
}

/// Whether CTR after the decrement allows the branch.
#[inline(always)]
pub fn ctr_ok(regs: &Regs, insn: Decoded) -> bool
    ensures { result ≡ branch.ctr_ok regs.now insn.word }
{
    let zero = if count(regs, insn) == 0 { 1 } else { 0 };
    fields::bo(insn.word, 2) == 1 || fields::bo(insn.word, 3) == zero
}

/// Whether CR bit BI allows the branch.
#[inline(always)]
pub fn cond_ok(regs: &Regs, insn: Decoded) -> bool
    ensures { result ≡ branch.cond_ok regs.now insn.word }
{
    let n = operands::ra(insn) as u8;
    fields::bo(insn.word, 0) == 1 || bits_of(regs.cr, n, n) == fields::bo(insn.word, 1)
}

/// The target of a branch: an address if AA is set, otherwise a displacement from the branch.
#[inline(always)]
pub fn from_here(displacement: u32, regs: &Regs, insn: Decoded) -> u32
    ensures { result ≡ branch.from_here regs.now insn.word displacement }
{
    if fields::aa(insn.word) {
        displacement
    } else {
        regs.pc.wrapping_add(displacement)
    }
}

/// Goes to the target if the branch is taken, and otherwise to the next instruction. With LK, sets
/// LR to the address of the next instruction.
#[tactic(auto, unfolding(crate::specs::Branches::with_branch))]
#[inline(always)]
pub fn go(taken: bool, target: u32, regs: &mut Regs, insn: Decoded)
    ensures { regs.new ≡ branch.with_branch regs.old insn.word taken target }
{
    let after = regs.pc.wrapping_add(4);
    if fields::lk(insn.word) {
        regs.lr = after;
    }
    regs.pc = if taken { target / 4 * 4 } else { after };
}

/// A branch that tests BO and BI.
#[tactic(auto, unfolding(crate::specs::Branches::with_test_and_branch))]
#[inline(always)]
pub fn test_and_go(target: u32, regs: &mut Regs, insn: Decoded)
    ensures { regs.new ≡ branch.with_test_and_branch regs.old insn.word target }
{
    let taken = ctr_ok(regs, insn) && cond_ok(regs, insn);
    regs.ctr = count(regs, insn);
    go(taken, target, regs, insn);
}
