//! The execution of one instruction.

ghost use Rattle.ppc_core.specs.Instructions.{trap_where, effect_of, exec_of};
ghost use Rattle.ppc_core.specs.Outcomes.{Leaves};

use crate::arithmetic::{set_carrying, set_signed_quotient, set_sum, set_sum_carrying};
use crate::branch::from_here;
use crate::bus::Bus;
use crate::condition::{in_ba, in_bb, invert, is_trapped};
use crate::logic::{mask_of, rotate};
use crate::multiple::{Direction, transfer};
use crate::operands::{ra, rb, rt};
use crate::registers::{ca, in_ra, in_ra_or_0, in_rb, in_rs, set_ra};
use crate::storage::{Address, Load, Store, indexed, load_rt, offset, store_rs};
use crate::trap::Trap;
use crate::{arithmetic, branch, condition, logic, multiple, registers};
use ppc_word::fields::{bd, bf, bfa, high_ui, li, si, spr, ui};
use ppc_word::{Decoded, Row, bits_of, decode_once, extend_sign};
use wind_base::Regs;

/// Traps if `trapped` is set, and otherwise goes to the next instruction.
#[inline(always)]
fn trap_if<B: Bus>(trapped: bool, regs: &mut Regs, bus: &mut B) -> Result<(), Trap>
    ensures { Leaves (trap_where trapped regs.old (B.held bus.old))
        regs.old (B.held bus.old) regs.new (B.held bus.new) result }
{
    if trapped {
        return Err(Trap::TrapInsn);
    }
    registers::step(regs);
    Ok(())
}

/// Does what the row of a word says. It has one arm for each row; with everything else inlined into
/// it, this is a single jump. It is too large for the toolchain to inline.
#[tactic(auto, using(crate::proofs::Bounds::or_of_bits), unfolding(crate::specs::Instructions::effect_of))]
#[inline(never)]
fn run<B: Bus>(row: Row, regs: &mut Regs, insn: Decoded, bus: &mut B) -> Result<(), Trap>
    ensures { Leaves (effect_of B.meaning row regs.old insn.word (B.held bus.old))
        regs.old (B.held bus.old) regs.new (B.held bus.new) result }
{
    match row {
        // Branches and system call.
        Row::B => {
            branch::go(true, from_here(li(insn.word), regs, insn), regs, insn);
            return Ok(());
        }
        Row::Bc => {
            branch::test_and_go(from_here(bd(insn.word), regs, insn), regs, insn);
            return Ok(());
        }
        Row::Bclr => {
            branch::test_and_go(regs.lr, regs, insn);
            return Ok(());
        }
        Row::Bcctr => {
            branch::test_and_go(regs.ctr, regs, insn);
            return Ok(());
        }
        Row::Sc => return Err(Trap::Sysc),
        // Condition register.
        Row::Crand => condition::set_bt(in_ba(regs, insn) & in_bb(regs, insn), regs, insn),
        Row::Cror => condition::set_bt(in_ba(regs, insn) | in_bb(regs, insn), regs, insn),
        Row::Crxor => condition::set_bt(in_ba(regs, insn) ^ in_bb(regs, insn), regs, insn),
        Row::Crnand => condition::set_bt(invert(in_ba(regs, insn) & in_bb(regs, insn)), regs, insn),
        Row::Crnor => condition::set_bt(invert(in_ba(regs, insn) | in_bb(regs, insn)), regs, insn),
        Row::Creqv => condition::set_bt(invert(in_ba(regs, insn) ^ in_bb(regs, insn)), regs, insn),
        Row::Crandc => condition::set_bt(in_ba(regs, insn) & invert(in_bb(regs, insn)), regs, insn),
        Row::Crorc => condition::set_bt(in_ba(regs, insn) | invert(in_bb(regs, insn)), regs, insn),
        Row::Mcrf => {
            let value = condition::cr_field(regs, bfa(insn.word));
            registers::set_cr_field(bf(insn.word), value, regs);
        }
        // Loads and stores.
        Row::Lbz => return load_rt(Load::Byte, Address::Offset, regs, insn, bus),
        Row::Lbzx => return load_rt(Load::Byte, Address::Indexed, regs, insn, bus),
        Row::Lbzu => return load_rt(Load::Byte, Address::OffsetUpdate, regs, insn, bus),
        Row::Lbzux => return load_rt(Load::Byte, Address::IndexedUpdate, regs, insn, bus),
        Row::Lhz => return load_rt(Load::Half, Address::Offset, regs, insn, bus),
        Row::Lhzx => return load_rt(Load::Half, Address::Indexed, regs, insn, bus),
        Row::Lhzu => return load_rt(Load::Half, Address::OffsetUpdate, regs, insn, bus),
        Row::Lhzux => return load_rt(Load::Half, Address::IndexedUpdate, regs, insn, bus),
        Row::Lha => return load_rt(Load::HalfSigned, Address::Offset, regs, insn, bus),
        Row::Lhax => return load_rt(Load::HalfSigned, Address::Indexed, regs, insn, bus),
        Row::Lhau => return load_rt(Load::HalfSigned, Address::OffsetUpdate, regs, insn, bus),
        Row::Lhaux => return load_rt(Load::HalfSigned, Address::IndexedUpdate, regs, insn, bus),
        Row::Lwz => return load_rt(Load::Word, Address::Offset, regs, insn, bus),
        Row::Lwzx => return load_rt(Load::Word, Address::Indexed, regs, insn, bus),
        Row::Lwzu => return load_rt(Load::Word, Address::OffsetUpdate, regs, insn, bus),
        Row::Lwzux => return load_rt(Load::Word, Address::IndexedUpdate, regs, insn, bus),
        Row::Stb => return store_rs(Store::Byte, Address::Offset, regs, insn, bus),
        Row::Stbx => return store_rs(Store::Byte, Address::Indexed, regs, insn, bus),
        Row::Stbu => return store_rs(Store::Byte, Address::OffsetUpdate, regs, insn, bus),
        Row::Stbux => return store_rs(Store::Byte, Address::IndexedUpdate, regs, insn, bus),
        Row::Sth => return store_rs(Store::Half, Address::Offset, regs, insn, bus),
        Row::Sthx => return store_rs(Store::Half, Address::Indexed, regs, insn, bus),
        Row::Sthu => return store_rs(Store::Half, Address::OffsetUpdate, regs, insn, bus),
        Row::Sthux => return store_rs(Store::Half, Address::IndexedUpdate, regs, insn, bus),
        Row::Stw => return store_rs(Store::Word, Address::Offset, regs, insn, bus),
        Row::Stwx => return store_rs(Store::Word, Address::Indexed, regs, insn, bus),
        Row::Stwu => return store_rs(Store::Word, Address::OffsetUpdate, regs, insn, bus),
        Row::Stwux => return store_rs(Store::Word, Address::IndexedUpdate, regs, insn, bus),
        Row::Lhbrx => return load_rt(Load::HalfReversed, Address::Indexed, regs, insn, bus),
        Row::Lwbrx => return load_rt(Load::WordReversed, Address::Indexed, regs, insn, bus),
        Row::Sthbrx => return store_rs(Store::HalfReversed, Address::Indexed, regs, insn, bus),
        Row::Stwbrx => return store_rs(Store::WordReversed, Address::Indexed, regs, insn, bus),
        Row::Lmw => return transfer(Direction::Load, offset(regs, insn), regs, insn, bus),
        Row::Stmw => return transfer(Direction::Store, offset(regs, insn), regs, insn, bus),
        // Sums.
        Row::Addi => {
            let value = arithmetic::sum_of(in_ra_or_0(regs, insn), si(insn.word), 0);
            registers::write(rt(insn), value, regs);
        }
        Row::Addis => {
            let value = arithmetic::sum_of(in_ra_or_0(regs, insn), high_ui(insn.word), 0);
            registers::write(rt(insn), value, regs);
        }
        Row::Addic => set_carrying(in_ra(regs, insn), si(insn.word), 0, regs, insn),
        Row::AddicDot => {
            let a = in_ra(regs, insn);
            set_carrying(a, si(insn.word), 0, regs, insn);
            registers::set_cr0(arithmetic::sum_of(a, si(insn.word), 0), regs);
        }
        Row::Subfic => set_carrying(!in_ra(regs, insn), si(insn.word), 1, regs, insn),
        Row::Add => set_sum(in_ra(regs, insn), in_rb(regs, insn), 0, regs, insn),
        Row::Subf => set_sum(!in_ra(regs, insn), in_rb(regs, insn), 1, regs, insn),
        Row::Neg => set_sum(!in_ra(regs, insn), 0, 1, regs, insn),
        Row::Addc => set_sum_carrying(in_ra(regs, insn), in_rb(regs, insn), 0, regs, insn),
        Row::Subfc => set_sum_carrying(!in_ra(regs, insn), in_rb(regs, insn), 1, regs, insn),
        Row::Adde => set_sum_carrying(in_ra(regs, insn), in_rb(regs, insn), ca(regs), regs, insn),
        Row::Subfe => set_sum_carrying(!in_ra(regs, insn), in_rb(regs, insn), ca(regs), regs, insn),
        Row::Addme => set_sum_carrying(in_ra(regs, insn), 0xffff_ffff, ca(regs), regs, insn),
        Row::Subfme => set_sum_carrying(!in_ra(regs, insn), 0xffff_ffff, ca(regs), regs, insn),
        Row::Addze => set_sum_carrying(in_ra(regs, insn), 0, ca(regs), regs, insn),
        Row::Subfze => set_sum_carrying(!in_ra(regs, insn), 0, ca(regs), regs, insn),
        // Products and quotients.
        Row::Mulli => {
            let value = arithmetic::low_signed(in_ra(regs, insn), si(insn.word));
            registers::write(rt(insn), value, regs);
        }
        Row::Mulhwu => {
            let value = arithmetic::high_unsigned(in_ra(regs, insn), in_rb(regs, insn));
            registers::set_rt(value, regs, insn);
        }
        Row::Mulhw => {
            let value = arithmetic::high_signed(in_ra(regs, insn), in_rb(regs, insn));
            registers::set_rt(value, regs, insn);
        }
        Row::Mullw => arithmetic::set_product(in_ra(regs, insn), in_rb(regs, insn), regs, insn),
        Row::Divwu => arithmetic::set_quotient(in_ra(regs, insn), in_rb(regs, insn), regs, insn),
        Row::Divw => set_signed_quotient(in_ra(regs, insn), in_rb(regs, insn), regs, insn),
        // Comparisons and traps.
        Row::Cmpi => condition::compare_signed(in_ra(regs, insn), si(insn.word), regs, insn),
        Row::Cmp => condition::compare_signed(in_ra(regs, insn), in_rb(regs, insn), regs, insn),
        Row::Cmpli => condition::compare(in_ra(regs, insn), ui(insn.word), regs, insn),
        Row::Cmpl => condition::compare(in_ra(regs, insn), in_rb(regs, insn), regs, insn),
        Row::Twi => {
            let trapped = is_trapped(in_ra(regs, insn), si(insn.word), insn);
            return trap_if(trapped, regs, bus);
        }
        Row::Tw => {
            let trapped = is_trapped(in_ra(regs, insn), in_rb(regs, insn), insn);
            return trap_if(trapped, regs, bus);
        }
        // Logic.
        Row::Andi => registers::record(ra(insn), in_rs(regs, insn) & ui(insn.word), regs),
        Row::Andis => registers::record(ra(insn), in_rs(regs, insn) & high_ui(insn.word), regs),
        Row::Ori => registers::write(ra(insn), in_rs(regs, insn) | ui(insn.word), regs),
        Row::Oris => registers::write(ra(insn), in_rs(regs, insn) | high_ui(insn.word), regs),
        Row::Xori => registers::write(ra(insn), in_rs(regs, insn) ^ ui(insn.word), regs),
        Row::Xoris => registers::write(ra(insn), in_rs(regs, insn) ^ high_ui(insn.word), regs),
        Row::And => set_ra(in_rs(regs, insn) & in_rb(regs, insn), regs, insn),
        Row::Or => set_ra(in_rs(regs, insn) | in_rb(regs, insn), regs, insn),
        Row::Xor => set_ra(in_rs(regs, insn) ^ in_rb(regs, insn), regs, insn),
        Row::Nand => set_ra(!(in_rs(regs, insn) & in_rb(regs, insn)), regs, insn),
        Row::Nor => set_ra(!(in_rs(regs, insn) | in_rb(regs, insn)), regs, insn),
        Row::Eqv => set_ra(!(in_rs(regs, insn) ^ in_rb(regs, insn)), regs, insn),
        Row::Andc => set_ra(in_rs(regs, insn) & !in_rb(regs, insn), regs, insn),
        Row::Orc => set_ra(in_rs(regs, insn) | !in_rb(regs, insn), regs, insn),
        Row::Extsb => set_ra(extend_sign(8, in_rs(regs, insn) % 0x100), regs, insn),
        Row::Extsh => set_ra(extend_sign(16, in_rs(regs, insn) % 0x1_0000), regs, insn),
        Row::Cntlzw => set_ra(in_rs(regs, insn).leading_zeros(), regs, insn),
        // Rotation and shifts.
        Row::Rlwinm => {
            let value = rotate(rb(insn), regs, insn) & mask_of(insn);
            set_ra(value, regs, insn);
        }
        Row::Rlwnm => {
            let value = rotate(bits_of(in_rb(regs, insn), 27, 31), regs, insn) & mask_of(insn);
            set_ra(value, regs, insn);
        }
        Row::Rlwimi => {
            let rotated = rotate(rb(insn), regs, insn);
            let value = logic::merge(mask_of(insn), rotated, in_ra(regs, insn));
            set_ra(value, regs, insn);
        }
        Row::Slw => {
            let value = logic::shift_left(in_rs(regs, insn), logic::distance_of(regs, insn));
            set_ra(value, regs, insn);
        }
        Row::Srw => {
            let value = logic::shift_right(in_rs(regs, insn), logic::distance_of(regs, insn));
            set_ra(value, regs, insn);
        }
        Row::Srawi => logic::set_signed_shift(rb(insn), regs, insn),
        Row::Sraw => logic::set_signed_shift(logic::distance_of(regs, insn), regs, insn),
        // Special registers and the condition register.
        Row::Mtspr => condition::set_special(spr(insn.word), in_rs(regs, insn), regs),
        Row::Mfspr => {
            let value = condition::special(regs, spr(insn.word));
            registers::write(rt(insn), value, regs);
        }
        Row::Mtcrf => regs.cr = condition::moved(regs.cr, in_rs(regs, insn), insn),
        Row::Mcrxr => {
            registers::set_cr_field(bf(insn.word), condition::flags(regs) * 2, regs);
            regs.xer = 0;
        }
        Row::Mfcr => registers::write(rt(insn), regs.cr, regs),
        // Reservations and the order of accesses.
        Row::Lwarx => return multiple::load_and_reserve(indexed(regs, insn), regs, insn, bus),
        Row::Stwcx => return multiple::store_conditional(indexed(regs, insn), regs, insn, bus),
        Row::Isync => {}
        Row::Sync => {}
        Row::Eieio => {}
    }
    registers::step(regs);
    Ok(())
}

/// Executes one instruction: it does what the row of the word says, and traps with `Illegal` if the
/// word has no row. A trap changes nothing.
#[tactic(auto, unfolding(crate::specs::Instructions::exec_of))]
pub fn exec<B: Bus>(regs: &mut Regs, word: u32, bus: &mut B) -> Result<(), Trap>
    ensures { Leaves (exec_of B.meaning regs.old word (B.held bus.old))
        regs.old (B.held bus.old) regs.new (B.held bus.new) result }
{
    match decode_once(word) {
        Some(insn) => run(insn.row, regs, insn, bus),
        None => Err(Trap::Illegal),
    }
}
