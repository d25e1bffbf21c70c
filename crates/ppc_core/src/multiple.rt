//! Loads and stores of several words, and reservations.

ghost use Rattle.std.specs.Prelude.{◌≡◌, ◌+◌, ◌*◌, ◌≤◌, ◌^◌, true, OnOk, IfErr};
ghost use Rattle.ppc_core.specs.Buses.{all_ram};
ghost use Rattle.ppc_core.specs.Outcomes.{Leaves, Outcome, Trapped};
ghost use Rattle.ppc_core.specs.Multiples as multiple;

use crate::bus::Bus;
use crate::trap::{Ending, Trap};
use crate::{operands, registers};
use ppc_word::Decoded;
use wind_base::Regs;

/// Which way the words of several registers go.
#[derive(Clone, Copy, Debug)]
pub enum Direction {
    /// From memory to the registers.
    Load,
    /// From the registers to memory.
    Store,
}

/// Loads `count` words into the registers from `target` on.
fn load_words<B: Bus>(target: u32, at: u32, count: u32, regs: &mut Regs, bus: &mut B)
    requires registers { target + count ≤ 32 }
    requires ram { all_ram B.meaning (B.held bus.old) at (4 * count) ≡ true }
    requires ends { at + 4 * count ≤ 2 ^ 32 }
    ensures regs { regs.new ≡ multiple.with_words B.meaning regs.old (B.held bus.old) target at count }
    ensures bus { B.held bus.new ≡ multiple.words_loaded B.meaning (B.held bus.old) at count }
{
    for k in 0..count {
        let Ok(value) = bus.load32(at + 4 * k) else {
            unreachable!();
        };
        registers::write(target + k, value, regs);
    }
}

/// Stores `count` registers from `source` on.
fn store_words<B: Bus>(source: u32, at: u32, count: u32, regs: &Regs, bus: &mut B)
    requires registers { source + count ≤ 32 }
    requires ram { all_ram B.meaning (B.held bus.old) at (4 * count) ≡ true }
    requires ends { at + 4 * count ≤ 2 ^ 32 }
    ensures { B.held bus.new ≡ multiple.words_stored B.meaning regs.now (B.held bus.old) source at count }
{
    for k in 0..count {
        let value = registers::read(regs, source + k);
        let Ok(()) = bus.store32(at + 4 * k, value) else {
            unreachable!();
        };
    }
}

/// Refuses an access of `n` bytes at an address that isn't a multiple of 4, or to bytes that aren't
/// all RAM.
#[inline(always)]
fn check_ram<B: Bus>(at: u32, n: u32, bus: &B) -> Result<(), Trap>
    ensures ram { OnOk result (all_ram B.meaning (B.held bus.now) at n ≡ true) }
    ensures ends { OnOk result (at + n ≤ 2 ^ 32) }
    ensures passes { OnOk result ((o : Outcome B.Held) → multiple.in_ram B.meaning (B.held bus.now) at n o ≡ o) }
    ensures traps { IfErr result
        (λ trap. (o : Outcome B.Held) → multiple.in_ram B.meaning (B.held bus.now) at n o ≡ Trapped trap) }
{
    if at % 4 != 0 {
        return Err(Trap::Align);
    }
    if !bus.is_ram(at, n) {
        return Err(Trap::Access);
    }
    Ok(())
}

/// Loads or stores the registers RT to 31 from or to the words at `at` and after it.
#[tactic(auto, unfolding(crate::specs::Multiples::load_multiple_of, crate::specs::Multiples::store_multiple_of))]
#[inline(always)]
pub fn transfer<B: Bus>(
    what: Direction,
    at: u32,
    regs: &mut Regs,
    insn: Decoded,
    bus: &mut B,
) -> Ending
    ensures { Leaves (multiple.multiple_of B.meaning what regs.old insn.word (B.held bus.old) at)
        regs.old (B.held bus.old) regs.new (B.held bus.new) result }
{
    let first = operands::rt(insn);
    let count = 32 - first;
    check_ram(at, 4 * count, bus)?;
    match what {
        Direction::Load => load_words(first, at, count, regs, bus),
        Direction::Store => store_words(first, at, count, regs, bus),
    }
    registers::step(regs);
    Ok(())
}

/// Loads the word at `at` into RT, and reserves its address.
#[tactic(auto, unfolding(crate::specs::Multiples::load_and_reserve_of))]
pub fn load_and_reserve<B: Bus>(at: u32, regs: &mut Regs, insn: Decoded, bus: &mut B) -> Ending
    ensures { Leaves (multiple.load_and_reserve_of B.meaning regs.old insn.word (B.held bus.old) at)
        regs.old (B.held bus.old) regs.new (B.held bus.new) result }
{
    check_ram(at, 4, bus)?;
    let Ok(value) = bus.load32(at) else {
        unreachable!();
    };
    registers::write(operands::rt(insn), value, regs);
    regs.reserve = Some(at);
    registers::step(regs);
    Ok(())
}

/// Whether an address is reserved.
fn reserves(reserve: Option<u32>, at: u32) -> bool
    ensures { result ≡ multiple.is_reserved reserve at }
{
    match reserve {
        Some(n) => n == at,
        None => false,
    }
}

/// Stores (RS) at `at` if that address is reserved. Afterwards no address is reserved.
#[tactic(auto, unfolding(crate::specs::Multiples::store_conditional_of))]
pub fn store_conditional<B: Bus>(at: u32, regs: &mut Regs, insn: Decoded, bus: &mut B) -> Ending
    ensures { Leaves (multiple.store_conditional_of B.meaning regs.old insn.word (B.held bus.old) at)
        regs.old (B.held bus.old) regs.new (B.held bus.new) result }
{
    check_ram(at, 4, bus)?;
    let stored = reserves(regs.reserve, at);
    let mark = if stored { 1 } else { 0 };
    let value = registers::in_rs(regs, insn);
    if stored {
        let Ok(()) = bus.store32(at, value) else {
            unreachable!();
        };
    }
    registers::set_cr_field(0, 2 * mark + registers::so(regs), regs);
    regs.reserve = None;
    registers::step(regs);
    Ok(())
}
