//! Loads and stores of one datum (Book I, 3.3.2 to 3.3.4).

ghost use Rattle.std.specs.Prelude.{◌≡◌, ◌<◌, ◌*◌, ◌^◌};
ghost use Rattle.ppc_core.specs.Buses.{Loads, Stores};
ghost use Rattle.ppc_core.specs.Outcomes.{Leaves};
ghost use Rattle.ppc_core.specs.Stepping.{at_pc, LeavesAt};
ghost use Rattle.ppc_core.specs.Storage as storage;

use crate::bus::{Bus, Fault};
use crate::trap::Trap;
use crate::{operands, registers};
use ppc_word::{Decoded, extend_half, fields};
use wind_base::Regs;

/// What a load reads, and how it becomes a register's content.
#[derive(Clone, Copy, Debug)]
pub enum Load {
    /// A byte, with zeros before it.
    Byte,
    /// A halfword, with zeros before it.
    Half,
    /// A halfword, with its sign extended.
    HalfSigned,
    /// A halfword with its bytes reversed, and zeros before it.
    HalfReversed,
    /// A word.
    Word,
    /// A word with its bytes reversed.
    WordReversed,
}

/// What a store writes.
#[derive(Clone, Copy, Debug)]
pub enum Store {
    /// The low byte of the register.
    Byte,
    /// The low halfword of the register.
    Half,
    /// The low halfword of the register, with its bytes reversed.
    HalfReversed,
    /// The register's word.
    Word,
    /// The register's word, with its bytes reversed.
    WordReversed,
}

/// How an access computes its effective address, and whether it writes that to the base register.
#[derive(Clone, Copy, Debug)]
pub enum Address {
    /// (RA|0) + D.
    Offset,
    /// (RA|0) + D, with RA updated.
    OffsetUpdate,
    /// (RA|0) + (RB).
    Indexed,
    /// (RA|0) + (RB), with RA updated.
    IndexedUpdate,
}

/// The effective address (RA|0) + D.
#[inline(always)]
pub fn offset(regs: &Regs, insn: Decoded) -> u32
    ensures { result ≡ storage.offset regs.now insn.word }
{
    registers::in_ra_or_0(regs, insn).wrapping_add(fields::si(insn.word))
}

/// The effective address (RA|0) + (RB).
#[inline(always)]
pub fn indexed(regs: &Regs, insn: Decoded) -> u32
    ensures { result ≡ storage.indexed regs.now insn.word }
{
    registers::in_ra_or_0(regs, insn).wrapping_add(registers::in_rb(regs, insn))
}

/// The effective address for a form.
#[inline(always)]
fn address_for(address: Address, regs: &Regs, insn: Decoded) -> u32
    ensures { result ≡ storage.address_of address regs.now insn.word }
{
    match address {
        Address::Offset => offset(regs, insn),
        Address::OffsetUpdate => offset(regs, insn),
        Address::Indexed => indexed(regs, insn),
        Address::IndexedUpdate => indexed(regs, insn),
    }
}

/// Updates RA after an access, if the form says so.
#[inline(always)]
fn set_base(address: Address, at: u32, regs: &mut Regs, insn: Decoded)
    ensures { regs.new ≡ storage.with_base address regs.old insn.word at }
{
    match address {
        Address::Offset => {}
        Address::OffsetUpdate => registers::write(operands::ra(insn), at, regs),
        Address::Indexed => {}
        Address::IndexedUpdate => registers::write(operands::ra(insn), at, regs),
    }
}

#[inline(always)]
fn read_datum<B: Bus>(load: Load, at: u32, bus: &mut B) -> Result<u32, Fault>
    ensures { Loads B.meaning (storage.load_width load) at (B.held bus.old) (B.held bus.new) result }
{
    match load {
        Load::Byte => bus.load8(at),
        Load::Half => bus.load16(at),
        Load::HalfSigned => bus.load16(at),
        Load::HalfReversed => bus.load16(at),
        Load::Word => bus.load32(at),
        Load::WordReversed => bus.load32(at),
    }
}

#[inline(always)]
fn write_datum<B: Bus>(store: Store, at: u32, value: u32, bus: &mut B) -> Result<(), Fault>
    ensures { Stores B.meaning (storage.store_width store) at value (B.held bus.old) (B.held bus.new) result }
{
    match store {
        Store::Byte => bus.store8(at, value),
        Store::Half => bus.store16(at, value),
        Store::HalfReversed => bus.store16(at, value),
        Store::Word => bus.store32(at, value),
        Store::WordReversed => bus.store32(at, value),
    }
}

#[inline(always)]
fn reverse_half(half: u32) -> u32
    requires { half < 2 ^ 16 }
    ensures is { result ≡ storage.reversed_half half }
    ensures below { result < 2 ^ 16 }
{
    half % 0x100 * 0x100 + half / 0x100
}

#[inline(always)]
fn reverse_word(word: u32) -> u32
    ensures { result ≡ storage.reversed_word word }
{
    reverse_half(word % 0x1_0000) * 0x1_0000 + reverse_half(word / 0x1_0000)
}

/// The content of the register after a load of this datum.
#[inline(always)]
fn taken_of(load: Load, datum: u32) -> u32
    requires { datum < 2 ^ (8 * storage.load_width load) }
    ensures { result ≡ storage.taken load datum }
{
    match load {
        Load::Byte => datum,
        Load::Half => datum,
        Load::HalfSigned => extend_half(datum),
        Load::HalfReversed => reverse_half(datum),
        Load::Word => datum,
        Load::WordReversed => reverse_word(datum),
    }
}

/// The datum that a store writes from this register content.
#[inline(always)]
fn given_of(store: Store, value: u32) -> u32
    ensures { result ≡ storage.given store value }
{
    match store {
        Store::Byte => value % 0x100,
        Store::Half => value % 0x1_0000,
        Store::HalfReversed => reverse_half(value % 0x1_0000),
        Store::Word => value,
        Store::WordReversed => reverse_word(value),
    }
}

/// Loads the datum at the effective address into RT.
#[tactic(auto, unfolding(crate::specs::Storage::load_of))]
#[inline(always)]
pub fn load_rt<B: Bus>(
    what: Load,
    address: Address,
    regs: &mut Regs,
    insn: Decoded,
    bus: &mut B,
) -> Result<(), Trap>
    ensures { Leaves (storage.load_of B.meaning what address regs.old insn.word (B.held bus.old))
        regs.old (B.held bus.old) regs.new (B.held bus.new) result }
{
    let at = address_for(address, regs, insn);
    let Ok(datum) = read_datum(what, at, bus) else {
        return Err(Trap::Access);
    };
    registers::write(operands::rt(insn), taken_of(what, datum), regs);
    set_base(address, at, regs, insn);
    registers::step(regs);
    Ok(())
}

/// Stores (RS) at the effective address.
#[tactic(auto, unfolding(crate::specs::Storage::store_of))]
#[inline(always)]
pub fn store_rs<B: Bus>(
    what: Store,
    address: Address,
    regs: &mut Regs,
    insn: Decoded,
    bus: &mut B,
) -> Result<(), Trap>
    ensures { Leaves (storage.store_of B.meaning what address regs.old insn.word (B.held bus.old))
        regs.old (B.held bus.old) regs.new (B.held bus.new) result }
{
    let at = address_for(address, regs, insn);
    let value = given_of(what, registers::in_rs(regs, insn));
    let Ok(()) = write_datum(what, at, value, bus) else {
        return Err(Trap::Access);
    };
    set_base(address, at, regs, insn);
    registers::step(regs);
    Ok(())
}

/// Loads the datum at the effective address into RT, for the instruction at `pc`, and returns the
/// next address.
#[tactic(auto, using(crate::proofs::Beside::address_of_at, crate::proofs::Beside::with_base_at), unfolding(crate::specs::Storage::load_of, crate::specs::Registers::gpr, crate::specs::Registers::with_gpr, crate::specs::Registers::next))]
#[inline(always)]
pub fn load_at<B: Bus>(
    what: Load,
    address: Address,
    pc: u32,
    regs: &mut Regs,
    insn: Decoded,
    bus: &mut B,
) -> Result<u32, Trap>
    ensures { LeavesAt (storage.load_of B.meaning what address (at_pc regs.old pc) insn.word (B.held bus.old))
        pc regs.old (B.held bus.old) regs.new (B.held bus.new) result }
{
    let at = address_for(address, regs, insn);
    let Ok(value) = read_datum(what, at, bus) else {
        return Err(Trap::Access);
    };
    registers::write(operands::rt(insn), taken_of(what, value), regs);
    set_base(address, at, regs, insn);
    Ok(pc.wrapping_add(4))
}

/// Stores (RS) at the effective address, for the instruction at `pc`, and returns the next address.
#[tactic(auto, using(crate::proofs::Beside::address_of_at, crate::proofs::Beside::with_base_at), unfolding(crate::specs::Storage::store_of, crate::specs::Registers::gpr, crate::specs::Registers::with_gpr, crate::specs::Registers::next))]
#[inline(always)]
pub fn store_at<B: Bus>(
    what: Store,
    address: Address,
    pc: u32,
    regs: &mut Regs,
    insn: Decoded,
    bus: &mut B,
) -> Result<u32, Trap>
    ensures { LeavesAt (storage.store_of B.meaning what address (at_pc regs.old pc) insn.word (B.held bus.old))
        pc regs.old (B.held bus.old) regs.new (B.held bus.new) result }
{
    let at = address_for(address, regs, insn);
    let value = given_of(what, registers::in_rs(regs, insn));
    let Ok(()) = write_datum(what, at, value, bus) else {
        return Err(Trap::Access);
    };
    set_base(address, at, regs, insn);
    Ok(pc.wrapping_add(4))
}
