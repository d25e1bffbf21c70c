//! Instructions that touch registers only, at an address that is kept beside the registers.

ghost use Rattle.std.specs.Prelude.{◌≡◌, true, ◌+◌, ◌*◌, ◌/◌, ◌%◌, ◌^◌, if◌then◌else◌};
ghost use Rattle.ppc_core.specs.Instructions.{exec_of};
ghost use Rattle.ppc_core.specs.Stepping.{at_pc, is_left, MayStep};
ghost use Rattle.ppc_core.specs.declared.stepping.Progress.TheVariants as progress;

use crate::arithmetic::{low_signed, set_carrying, set_product, set_sum, sum_of};
use crate::bus::Bus;
use crate::condition::{compare, compare_signed, set_special, special};
use crate::logic::{distance_of, set_signed_shift, shift_left, shift_right};
use crate::operands::{ra, rb, rt};
use crate::registers::{in_ra, in_rb, in_rs, record, set_cr0, set_ra, write};
use ppc_word::fields::{high_ui, si, spr, ui};
use ppc_word::{Decoded, Op, bits_of};
use wind_base::Regs;

/// What `run_registers` did with an instruction. It names the operations that access memory most,
/// so its caller needs no second look at the operation.
#[derive(Clone, Copy, Drop)]
pub enum Progress {
    /// It executed the instruction. The next address.
    Executed(u32),
    /// Nothing: the operation is `LoadWord`.
    LoadWord,
    /// Nothing: the operation is `Lwzu`.
    Lwzu,
    /// Nothing: the operation is `Lbz`.
    Lbz,
    /// Nothing: the operation is `StoreWord`.
    StoreWord,
    /// Nothing: the operation is `Stwu`.
    Stwu,
    /// Nothing: the operation is another one that `run_bus` executes, or `Empty`.
    Other,
}

// The address after a branch that may be taken: `displacement` from here, or the next instruction.
#[inline(always)]
fn target_if(taken: bool, displacement: u32, pc: u32) -> u32
    ensures { result ≡ (if taken then (pc + displacement) % 2 ^ 32 / 4 * 4 else (pc + 4) % 2 ^ 32) }
{
    if taken {
        pc.wrapping_add(displacement) / 4 * 4
    } else {
        pc.wrapping_add(4)
    }
}

/// Executes an operation that touches registers only, and returns the next address. Any other
/// operation changes nothing, and those that access memory most are named. It has one arm for each
/// operation of its own; with everything else inlined into it, this is a single jump.
#[tactic(auto, unfolding(crate::specs::Instructions::exec_of, crate::specs::Instructions::effect_of, crate::specs::Branches::with_test_and_branch, crate::specs::Branches::with_branch, crate::specs::Arithmetic::with_carrying, crate::specs::Arithmetic::with_sum, crate::specs::Registers::with_checked_result, crate::specs::Registers::with_result, crate::specs::Registers::with_recorded, crate::specs::Registers::with_cr0, crate::specs::Registers::with_ov, crate::specs::Registers::with_ca, crate::specs::Registers::gpr, crate::specs::Registers::with_gpr, crate::specs::Registers::next, crate::specs::Registers::with_cr_field, crate::specs::Registers::so, crate::specs::Conditions::with_signed_order, crate::specs::Conditions::with_order, crate::specs::Logic::with_signed_shift, ppc_word::specs::Ops::fits))]
#[inline(always)]
pub fn run_registers<B: Bus>(pc: u32, regs: &mut Regs, insn: Decoded) -> Progress
    ensures step { MayStep (exec_of B.meaning (at_pc regs.old pc) insn.word) insn.op regs.old regs.new result }
    ensures other { result ≡ progress.Other → is_left insn.op ≡ true }
{
    match insn.op {
        Op::Branch => Progress::Executed(target_if(true, insn.immediate, pc)),
        Op::BranchLink => {
            regs.lr = pc.wrapping_add(4);
            Progress::Executed(target_if(true, insn.immediate, pc))
        }
        Op::BranchAbsolute => Progress::Executed(insn.immediate / 4 * 4),
        Op::BranchLinkAbsolute => {
            regs.lr = pc.wrapping_add(4);
            Progress::Executed(insn.immediate / 4 * 4)
        }
        Op::BranchTrue => {
            let n = insn.ra;
            Progress::Executed(target_if(bits_of(regs.cr, n, n) == 1, insn.immediate, pc))
        }
        Op::BranchFalse => {
            let n = insn.ra;
            Progress::Executed(target_if(bits_of(regs.cr, n, n) == 0, insn.immediate, pc))
        }
        Op::BranchDecrement => {
            regs.ctr = regs.ctr.wrapping_add(0xffff_ffff);
            Progress::Executed(target_if(regs.ctr != 0, insn.immediate, pc))
        }
        Op::BranchToLink => Progress::Executed(regs.lr / 4 * 4),
        Op::BranchToCount => Progress::Executed(regs.ctr / 4 * 4),
        Op::LoadImmediate => {
            write(rt(insn), si(insn.word), regs);
            Progress::Executed(pc.wrapping_add(4))
        }
        Op::LoadImmediateShifted => {
            write(rt(insn), high_ui(insn.word), regs);
            Progress::Executed(pc.wrapping_add(4))
        }
        Op::AddImmediate => {
            write(
                rt(insn),
                in_ra(regs, insn).wrapping_add(si(insn.word)),
                regs,
            );
            Progress::Executed(pc.wrapping_add(4))
        }
        Op::AddImmediateShifted => {
            write(
                rt(insn),
                in_ra(regs, insn).wrapping_add(high_ui(insn.word)),
                regs,
            );
            Progress::Executed(pc.wrapping_add(4))
        }
        Op::AddicDot => {
            let a = in_ra(regs, insn);
            set_carrying(a, si(insn.word), 0, regs, insn);
            set_cr0(sum_of(a, si(insn.word), 0), regs);
            Progress::Executed(pc.wrapping_add(4))
        }
        Op::Mulli => {
            write(rt(insn), low_signed(in_ra(regs, insn), si(insn.word)), regs);
            Progress::Executed(pc.wrapping_add(4))
        }
        Op::Add => {
            write(
                rt(insn),
                in_ra(regs, insn).wrapping_add(in_rb(regs, insn)),
                regs,
            );
            Progress::Executed(pc.wrapping_add(4))
        }
        Op::Subf => {
            write(
                rt(insn),
                sum_of(!in_ra(regs, insn), in_rb(regs, insn), 1),
                regs,
            );
            Progress::Executed(pc.wrapping_add(4))
        }
        Op::Neg => {
            set_sum(!in_ra(regs, insn), 0, 1, regs, insn);
            Progress::Executed(pc.wrapping_add(4))
        }
        Op::Mullw => {
            set_product(in_ra(regs, insn), in_rb(regs, insn), regs, insn);
            Progress::Executed(pc.wrapping_add(4))
        }
        Op::Cmpi => {
            compare_signed(in_ra(regs, insn), si(insn.word), regs, insn);
            Progress::Executed(pc.wrapping_add(4))
        }
        Op::Cmp => {
            compare_signed(in_ra(regs, insn), in_rb(regs, insn), regs, insn);
            Progress::Executed(pc.wrapping_add(4))
        }
        Op::Cmpli => {
            compare(in_ra(regs, insn), ui(insn.word), regs, insn);
            Progress::Executed(pc.wrapping_add(4))
        }
        Op::Cmpl => {
            compare(in_ra(regs, insn), in_rb(regs, insn), regs, insn);
            Progress::Executed(pc.wrapping_add(4))
        }
        Op::Andi => {
            record(ra(insn), in_rs(regs, insn) & ui(insn.word), regs);
            Progress::Executed(pc.wrapping_add(4))
        }
        Op::Ori => {
            write(ra(insn), in_rs(regs, insn) | ui(insn.word), regs);
            Progress::Executed(pc.wrapping_add(4))
        }
        Op::Oris => {
            write(ra(insn), in_rs(regs, insn) | high_ui(insn.word), regs);
            Progress::Executed(pc.wrapping_add(4))
        }
        Op::Xori => {
            write(ra(insn), in_rs(regs, insn) ^ ui(insn.word), regs);
            Progress::Executed(pc.wrapping_add(4))
        }
        Op::Xoris => {
            write(ra(insn), in_rs(regs, insn) ^ high_ui(insn.word), regs);
            Progress::Executed(pc.wrapping_add(4))
        }
        Op::And => {
            write(ra(insn), in_rs(regs, insn) & in_rb(regs, insn), regs);
            Progress::Executed(pc.wrapping_add(4))
        }
        Op::Or => {
            write(ra(insn), in_rs(regs, insn) | in_rb(regs, insn), regs);
            Progress::Executed(pc.wrapping_add(4))
        }
        Op::OrDot => {
            record(ra(insn), in_rs(regs, insn) | in_rb(regs, insn), regs);
            Progress::Executed(pc.wrapping_add(4))
        }
        Op::Xor => {
            write(ra(insn), in_rs(regs, insn) ^ in_rb(regs, insn), regs);
            Progress::Executed(pc.wrapping_add(4))
        }
        Op::Nor => {
            write(ra(insn), !(in_rs(regs, insn) | in_rb(regs, insn)), regs);
            Progress::Executed(pc.wrapping_add(4))
        }
        Op::Rlwinm => {
            write(
                ra(insn),
                in_rs(regs, insn).rotate_left(rb(insn)) & insn.immediate,
                regs,
            );
            Progress::Executed(pc.wrapping_add(4))
        }
        Op::RlwinmDot => {
            record(
                ra(insn),
                in_rs(regs, insn).rotate_left(rb(insn)) & insn.immediate,
                regs,
            );
            Progress::Executed(pc.wrapping_add(4))
        }
        Op::Slw => {
            set_ra(
                shift_left(in_rs(regs, insn), distance_of(regs, insn)),
                regs,
                insn,
            );
            Progress::Executed(pc.wrapping_add(4))
        }
        Op::Srw => {
            set_ra(
                shift_right(in_rs(regs, insn), distance_of(regs, insn)),
                regs,
                insn,
            );
            Progress::Executed(pc.wrapping_add(4))
        }
        Op::Srawi => {
            set_signed_shift(rb(insn), regs, insn);
            Progress::Executed(pc.wrapping_add(4))
        }
        Op::Mtspr => {
            set_special(spr(insn.word), in_rs(regs, insn), regs);
            Progress::Executed(pc.wrapping_add(4))
        }
        Op::Mfspr => {
            write(rt(insn), special(regs, spr(insn.word)), regs);
            Progress::Executed(pc.wrapping_add(4))
        }
        Op::LoadWord => Progress::LoadWord,
        Op::Lwzu => Progress::Lwzu,
        Op::Lbz => Progress::Lbz,
        Op::StoreWord => Progress::StoreWord,
        Op::Stwu => Progress::Stwu,
        _ => Progress::Other,
    }
}
