//! Instructions that use the bus, at an address that is kept beside the registers.

ghost use Rattle.std.specs.Prelude.{◌≡◌, false};
ghost use Rattle.ppc_word.specs.declared.op.Op.TheVariants as ops;
ghost use Rattle.ppc_core.specs.Instructions.{effect_of, exec_of};
ghost use Rattle.ppc_core.specs.Outcomes.{Done};
ghost use Rattle.ppc_core.specs.Storage as storage;
ghost use Rattle.ppc_core.specs.Stepping.{at_pc, LeavesAt};

use crate::bus::Bus;
use crate::execution::exec;
use crate::operands::{ra, rt};
use crate::registers::{in_ra, in_rs, write};
use crate::storage::{Address, Load, Store, load_at, store_at};
use crate::trap::Trap;
use ppc_word::fields::si;
use ppc_word::{Decoded, Op, Row};
use wind_base::Regs;

/// The address of the word that `LoadWord` reads.
#[tactic(auto, unfolding(ppc_word::specs::Ops::fits))]
#[inline(always)]
pub fn load_address(regs: &Regs, insn: Decoded) -> u32
    requires { insn.op ≡ ops.LoadWord }
    ensures { result ≡ storage.offset regs.now insn.word }
{
    in_ra(regs, insn).wrapping_add(si(insn.word))
}

/// Ends `LoadWord` with the word that it read from its address, and returns the next address.
#[tactic(auto, unfolding(crate::specs::Instructions::exec_of, crate::specs::Instructions::effect_of, crate::specs::Storage::load_of, crate::specs::Registers::gpr, crate::specs::Registers::with_gpr, crate::specs::Registers::next))]
#[inline(always)]
pub fn finish_load<B: Bus>(datum: u32, pc: u32, regs: &mut Regs, insn: Decoded) -> u32
    requires { insn.op ≡ ops.LoadWord }
    ensures { let at = storage.offset regs.old insn.word in (b : B.Held)
        → B.meaning.faults b 4 at ≡ false → B.meaning.answer b 4 at ≡ datum
        → exec_of B.meaning (at_pc regs.old pc) insn.word b ≡ Done (at_pc regs.new result) (B.meaning.loaded b 4 at) }
{
    write(rt(insn), datum, regs);
    pc.wrapping_add(4)
}

/// Ends `Lwzu` with the word that it read from its address, and returns the next address.
#[tactic(auto, unfolding(crate::specs::Instructions::exec_of, crate::specs::Instructions::effect_of, crate::specs::Storage::load_of, crate::specs::Registers::gpr, crate::specs::Registers::with_gpr, crate::specs::Registers::next))]
#[inline(always)]
pub fn finish_load_update<B: Bus>(
    at: u32,
    datum: u32,
    pc: u32,
    regs: &mut Regs,
    insn: Decoded,
) -> u32
    requires op { insn.op ≡ ops.Lwzu }
    requires at { at ≡ storage.offset regs.old insn.word }
    ensures { (b : B.Held)
        → B.meaning.faults b 4 at ≡ false → B.meaning.answer b 4 at ≡ datum
        → exec_of B.meaning (at_pc regs.old pc) insn.word b ≡ Done (at_pc regs.new result) (B.meaning.loaded b 4 at) }
{
    write(rt(insn), datum, regs);
    write(ra(insn), at, regs);
    pc.wrapping_add(4)
}

/// Ends `Lbz` with the byte that it read from its address, and returns the next address.
#[tactic(auto, unfolding(crate::specs::Instructions::exec_of, crate::specs::Instructions::effect_of, crate::specs::Storage::load_of, crate::specs::Registers::gpr, crate::specs::Registers::with_gpr, crate::specs::Registers::next))]
#[inline(always)]
pub fn finish_load_byte<B: Bus>(datum: u32, pc: u32, regs: &mut Regs, insn: Decoded) -> u32
    requires { insn.op ≡ ops.Lbz }
    ensures { let at = storage.offset regs.old insn.word in (b : B.Held)
        → B.meaning.faults b 1 at ≡ false → B.meaning.answer b 1 at ≡ datum
        → exec_of B.meaning (at_pc regs.old pc) insn.word b ≡ Done (at_pc regs.new result) (B.meaning.loaded b 1 at) }
{
    write(rt(insn), datum, regs);
    pc.wrapping_add(4)
}

/// Executes `StoreWord`, and returns the next address. A trap changes nothing but, perhaps,
/// `regs.pc`, which isn't read.
#[tactic(auto, unfolding(crate::specs::Instructions::exec_of, crate::specs::Instructions::effect_of, crate::specs::Storage::store_of, crate::specs::Registers::gpr, crate::specs::Registers::next, ppc_word::specs::Ops::fits))]
#[inline(always)]
pub fn store_word<B: Bus>(pc: u32, regs: &mut Regs, insn: Decoded, bus: &mut B) -> Result<u32, Trap>
    requires { insn.op ≡ ops.StoreWord }
    ensures { LeavesAt (exec_of B.meaning (at_pc regs.old pc) insn.word (B.held bus.old))
        pc regs.old (B.held bus.old) regs.new (B.held bus.new) result }
{
    let at = in_ra(regs, insn).wrapping_add(si(insn.word));
    let Ok(()) = bus.store32(at, in_rs(regs, insn)) else {
        return Err(Trap::Access);
    };
    Ok(pc.wrapping_add(4))
}

/// Executes `Stwu` in the same way.
#[tactic(auto, unfolding(crate::specs::Instructions::exec_of, crate::specs::Instructions::effect_of))]
#[inline(always)]
pub fn store_word_update<B: Bus>(
    pc: u32,
    regs: &mut Regs,
    insn: Decoded,
    bus: &mut B,
) -> Result<u32, Trap>
    requires { insn.op ≡ ops.Stwu }
    ensures { LeavesAt (exec_of B.meaning (at_pc regs.old pc) insn.word (B.held bus.old))
        pc regs.old (B.held bus.old) regs.new (B.held bus.new) result }
{
    store_at(Store::Word, Address::OffsetUpdate, pc, regs, insn, bus)
}

// Any instruction: the program counter is set, and read back. The word is decoded once more, so
// that no decoded value is passed on.
#[inline(never)]
fn run_word<B: Bus>(pc: u32, regs: &mut Regs, word: u32, bus: &mut B) -> Result<u32, Trap>
    ensures { LeavesAt (exec_of B.meaning (at_pc regs.old pc) word (B.held bus.old))
        pc regs.old (B.held bus.old) regs.new (B.held bus.new) result }
{
    regs.pc = pc;
    exec(regs, word, bus)?;
    Ok(regs.pc)
}

/// Executes a decoded word at an address, and returns the next address. A trap changes nothing but,
/// perhaps, `regs.pc`, which isn't read.
#[tactic(auto, unfolding(crate::specs::Instructions::exec_of, crate::specs::Instructions::effect_of))]
#[inline(always)]
pub fn run_bus<B: Bus>(pc: u32, regs: &mut Regs, insn: Decoded, bus: &mut B) -> Result<u32, Trap>
    ensures { LeavesAt (exec_of B.meaning (at_pc regs.old pc) insn.word (B.held bus.old))
        pc regs.old (B.held bus.old) regs.new (B.held bus.new) result }
{
    match insn.op {
        Op::Lbz => load_at(Load::Byte, Address::Offset, pc, regs, insn, bus),
        Op::Lbzx => load_at(Load::Byte, Address::Indexed, pc, regs, insn, bus),
        Op::Lbzu => load_at(Load::Byte, Address::OffsetUpdate, pc, regs, insn, bus),
        Op::Lhz => load_at(Load::Half, Address::Offset, pc, regs, insn, bus),
        Op::Lhzx => load_at(Load::Half, Address::Indexed, pc, regs, insn, bus),
        Op::Lha => load_at(Load::HalfSigned, Address::Offset, pc, regs, insn, bus),
        Op::LoadWord => load_at(Load::Word, Address::Offset, pc, regs, insn, bus),
        Op::Lwzx => load_at(Load::Word, Address::Indexed, pc, regs, insn, bus),
        Op::Lwzu => load_at(Load::Word, Address::OffsetUpdate, pc, regs, insn, bus),
        Op::Stb => store_at(Store::Byte, Address::Offset, pc, regs, insn, bus),
        Op::Stbx => store_at(Store::Byte, Address::Indexed, pc, regs, insn, bus),
        Op::Stbu => store_at(Store::Byte, Address::OffsetUpdate, pc, regs, insn, bus),
        Op::Sth => store_at(Store::Half, Address::Offset, pc, regs, insn, bus),
        Op::Sthx => store_at(Store::Half, Address::Indexed, pc, regs, insn, bus),
        Op::StoreWord => store_word(pc, regs, insn, bus),
        Op::Stwx => store_at(Store::Word, Address::Indexed, pc, regs, insn, bus),
        Op::Stwu => store_word_update(pc, regs, insn, bus),
        _ if insn.row == Row::Stw => store_at(Store::Word, Address::Offset, pc, regs, insn, bus),
        _ => run_word(pc, regs, insn.word, bus),
    }
}
