//! Instructions of one actor, one after the other, with nothing in between.

ghost use Rattle.std.specs.Prelude.{◌≡◌, ◌≢◌, ℕ, ◌≤◌, ◌<◌, ◌+◌, ◌*◌, ◌/◌, ◌%◌, ◌^◌, true, length, Some, IfSome};
ghost use Rattle.wind_base.specs.Boards.{board_rules};
ghost use Rattle.ppc_word.specs.declared.op.Op.TheVariants as ops;
ghost use Rattle.ppc_core.specs.Stepping.{at_pc};
ghost use Rattle.board_mem.specs.Pages.{page_bytes};
ghost use Rattle.board_bus.specs.Access.{fetched};
ghost use Rattle.board_bus.specs.Seen.{bus_seen};
ghost use Rattle.live_loading.specs.KernelWorldSeen.{world_seen};
ghost use Rattle.board_actors.specs.{Instructions.{EndsAt, ExecutesMany, IsNext, MayEnd, MayRead, MayRun, Names, left_of, reached}, Running.{IsThere, RanMany}};

use board_bus::BoardBus;
use board_mem::{PAGE, WORDS};
use live_loading::{Actor, World};
use ppc_core::{
    Progress, exec, finish_load, finish_load_byte, finish_load_update, load_address, offset,
    run_bus, run_registers, store_word, store_word_update,
};
use ppc_word::{Decoded, Op};
use wind_base::Regs;
use wind_outside::Device;

// A copy of an entry, field by field, so that only the fields that an instruction needs are read.
#[inline(always)]
fn copied(entry: &Decoded) -> Decoded
    ensures { result ≡ entry.now }
{
    Decoded {
        op: entry.op,
        row: entry.row,
        rt: entry.rt,
        ra: entry.ra,
        rb: entry.rb,
        immediate: entry.immediate,
        word: entry.word,
    }
}

// How far a burst is: the address of its next instruction, and how many are left after that one. A
// burst that has ended is None; then the address is in `regs.pc`.
#[derive(Drop)]
struct Stretch {
    pc: u32,
    left: u64,
}

// The decoded word at an address, which is kept in its entry. None if the word can't be fetched, or
// is no instruction.
#[inline(always)]
fn decoded(pc: u32, bus: &mut BoardBus) -> Option<Decoded>
    requires { Unit {0} }
    ensures bus { bus_seen ⟦<dyn Device as Device>⟧ bus.new ≡ bus_seen ⟦<dyn Device as Device>⟧ bus.old }
    ensures word { IfSome result
        (λ d. fetched (bus_seen ⟦<dyn Device as Device>⟧ bus.old) pc ≡ Some d.word) }
{
    bus.ram.decode_at(pc)
}

// Decodes the word at an address into its entry, executes the instruction, and returns the next
// address. None if the word can't be fetched, is no instruction, or causes an exception; then
// nothing changes but, perhaps, `regs.pc`, which isn't read.
#[cold]
#[inline(never)]
fn run_undecoded(pc: u32, regs: &mut Regs, bus: &mut BoardBus) -> Option<u32>
    requires { Unit {0} }
    ensures { MayRun pc regs.old (bus_seen ⟦<dyn Device as Device>⟧ bus.old) regs.new
        (bus_seen ⟦<dyn Device as Device>⟧ bus.new) result }
{
    let insn = decoded(pc, bus)?;
    regs.pc = pc;
    match exec(regs, insn.word, bus) {
        Ok(()) => Some(regs.pc),
        Err(_) => None,
    }
}

// Whether an entry isn't empty.
#[inline(always)]
fn is_decoded(insn: Decoded) -> bool
    ensures { result ≡ true → insn.op ≢ ops.Empty }
{
    insn.op != Op::Empty
}

// Executes the instruction at an address, and returns the next address. None if it causes an
// exception; then nothing changes but, perhaps, `regs.pc`, which isn't read.
#[inline(always)]
fn run_with_bus(pc: u32, regs: &mut Regs, insn: Decoded, bus: &mut BoardBus) -> Option<u32>
    requires next { IsNext insn (bus_seen ⟦<dyn Device as Device>⟧ bus.old) pc }
    requires decoded { insn.op ≢ ops.Empty }
    ensures { MayRun pc regs.old (bus_seen ⟦<dyn Device as Device>⟧ bus.old) regs.new
        (bus_seen ⟦<dyn Device as Device>⟧ bus.new) result }
{
    match run_bus(pc, regs, insn, bus) {
        Ok(next) => Some(next),
        Err(_) => None,
    }
}

// Executes `LoadWord` from RAM. `Other` if the bytes aren't all in RAM; then nothing changes.
#[inline(always)]
fn load_word(pc: u32, regs: &mut Regs, insn: Decoded, bus: &BoardBus) -> Progress
    requires { insn.op ≡ ops.LoadWord }
    ensures { MayRead insn pc regs.old regs.new (bus_seen ⟦<dyn Device as Device>⟧ bus.now) result }
{
    match bus.ram.read32(load_address(regs, insn)) {
        Some(word) => Progress::Executed(finish_load::<BoardBus>(word, pc, regs, insn)),
        None => Progress::Other,
    }
}

// Executes `Lwzu` in the same way.
#[inline(always)]
fn load_word_update(pc: u32, regs: &mut Regs, insn: Decoded, bus: &BoardBus) -> Progress
    requires { insn.op ≡ ops.Lwzu }
    ensures { MayRead insn pc regs.old regs.new (bus_seen ⟦<dyn Device as Device>⟧ bus.now) result }
{
    let at = offset(regs, insn);
    match bus.ram.read32(at) {
        Some(word) => Progress::Executed(finish_load_update::<BoardBus>(at, word, pc, regs, insn)),
        None => Progress::Other,
    }
}

// Executes `Lbz` in the same way.
#[inline(always)]
fn load_byte(pc: u32, regs: &mut Regs, insn: Decoded, bus: &BoardBus) -> Progress
    requires { insn.op ≡ ops.Lbz }
    ensures { MayRead insn pc regs.old regs.new (bus_seen ⟦<dyn Device as Device>⟧ bus.now) result }
{
    match bus.ram.read8(offset(regs, insn)) {
        Some(byte) => Progress::Executed(finish_load_byte::<BoardBus>(byte, pc, regs, insn)),
        None => Progress::Other,
    }
}

// Executes an instruction that needs no more of the bus than to read RAM, of the operations of
// `run_registers` and those above. Any other changes nothing.
#[inline(always)]
fn run_reading(pc: u32, regs: &mut Regs, insn: Decoded, bus: &BoardBus) -> Progress
    ensures { MayRead insn pc regs.old regs.new (bus_seen ⟦<dyn Device as Device>⟧ bus.now) result }
{
    match run_registers::<BoardBus>(pc, regs, insn) {
        Progress::LoadWord => load_word(pc, regs, insn, bus),
        Progress::Lwzu => load_word_update(pc, regs, insn, bus),
        Progress::Lbz => load_byte(pc, regs, insn, bus),
        progress => progress,
    }
}

// The burst that goes on at an address, with this many instructions left. None if none is left.
#[inline(always)]
fn onward(pc: u32, left: u64, regs: &mut Regs) -> Option<Stretch>
    ensures left { left_of result ≡ left }
    ensures at { reached result regs.new ≡ at_pc regs.old pc }
{
    if left == 0 {
        regs.pc = pc;
        return None;
    }
    Some(Stretch { pc, left: left - 1 })
}

// Ends a burst before an instruction that can't be executed: what is left isn't counted as made.
#[cold]
#[inline(never)]
fn stop(from: Stretch, made: &mut u64, regs: &mut Regs)
    requires { from.left < made.old }
    ensures made { made.new + from.left + 1 ≡ made.old }
    ensures at { regs.new ≡ at_pc regs.old from.pc }
{
    *made = *made - from.left - 1;
    regs.pc = from.pc;
}

// The burst after the next instruction, if that was executed, and otherwise ended before it.
#[inline(always)]
fn stretch_to(next: Option<u32>, from: Stretch, made: &mut u64, regs: &mut Regs) -> Option<Stretch>
    requires { from.left < made.old }
    ensures { EndsAt next from made.old regs.old result made.new regs.new }
{
    match next {
        Some(next) => onward(next, from.left, regs),
        None => {
            stop(from, made, regs);
            None
        }
    }
}

// Executes the next instruction in a page without decoded words. A burst that comes to a gate ends
// here: the gates come after RAM, so no word is looked for.
#[inline(always)]
fn run_first(from: Stretch, made: &mut u64, regs: &mut Regs, bus: &mut BoardBus) -> Option<Stretch>
    requires { from.left < made.old }
    ensures { MayEnd from made.old regs.old (bus_seen ⟦<dyn Device as Device>⟧ bus.old)
        result made.new regs.new (bus_seen ⟦<dyn Device as Device>⟧ bus.new) }
{
    if !bus.ram.has(from.pc, 4) {
        stop(from, made, regs);
        return None;
    }
    let next = run_undecoded(from.pc, regs, bus);
    stretch_to(next, from, made, regs)
}

// Executes `StoreWord` at an address, and returns the next address. None if it causes an exception;
// then nothing changes but, perhaps, `regs.pc`, which isn't read.
#[inline(always)]
fn put_word(pc: u32, regs: &mut Regs, insn: Decoded, bus: &mut BoardBus) -> Option<u32>
    requires next { IsNext insn (bus_seen ⟦<dyn Device as Device>⟧ bus.old) pc }
    requires named { insn.op ≡ ops.StoreWord }
    ensures { MayRun pc regs.old (bus_seen ⟦<dyn Device as Device>⟧ bus.old) regs.new
        (bus_seen ⟦<dyn Device as Device>⟧ bus.new) result }
{
    match store_word(pc, regs, insn, bus) {
        Ok(next) => Some(next),
        Err(_) => None,
    }
}

// Executes `Stwu` in the same way.
#[inline(always)]
fn put_word_update(pc: u32, regs: &mut Regs, insn: Decoded, bus: &mut BoardBus) -> Option<u32>
    requires next { IsNext insn (bus_seen ⟦<dyn Device as Device>⟧ bus.old) pc }
    requires named { insn.op ≡ ops.Stwu }
    ensures { MayRun pc regs.old (bus_seen ⟦<dyn Device as Device>⟧ bus.old) regs.new
        (bus_seen ⟦<dyn Device as Device>⟧ bus.new) result }
{
    match store_word_update(pc, regs, insn, bus) {
        Ok(next) => Some(next),
        Err(_) => None,
    }
}

// Executes the next instruction, which `run_reading` has left, and decodes its word first if that
// isn't decoded. Each arm makes its burst itself, so that none is looked at twice.
#[inline(always)]
fn run_left(
    left: Progress,
    from: Stretch,
    made: &mut u64,
    regs: &mut Regs,
    insn: Decoded,
    bus: &mut BoardBus,
) -> Option<Stretch>
    requires next { IsNext insn (bus_seen ⟦<dyn Device as Device>⟧ bus.old) from.pc }
    requires named { Names left insn.op }
    requires more { from.left < made.old }
    ensures { MayEnd from made.old regs.old (bus_seen ⟦<dyn Device as Device>⟧ bus.old)
        result made.new regs.new (bus_seen ⟦<dyn Device as Device>⟧ bus.new) }
{
    let pc = from.pc;
    match left {
        Progress::StoreWord => {
            let next = put_word(pc, regs, insn, bus);
            stretch_to(next, from, made, regs)
        }
        Progress::Stwu => {
            let next = put_word_update(pc, regs, insn, bus);
            stretch_to(next, from, made, regs)
        }
        _ => {
            if !is_decoded(insn) {
                let next = run_undecoded(pc, regs, bus);
                return stretch_to(next, from, made, regs);
            }
            let next = run_with_bus(pc, regs, insn, bus);
            stretch_to(next, from, made, regs)
        }
    }
}

// Whether an address is a multiple of 4 in a page. It is one comparison: of the page's start, and
// the address without its place among the words of its page.
#[inline(always)]
fn is_word_of(page: u32, pc: u32) -> bool
    requires { page_bytes * page < 2 ^ 32 }
    ensures page { result ≡ true → pc / page_bytes ≡ page }
    ensures aligned { result ≡ true → pc % 4 ≡ 0 }
    ensures all { pc / page_bytes ≡ page → pc % 4 ≡ 0 → result ≡ true }
{
    pc - pc % PAGE as u32 + pc % 4 == page * PAGE as u32
}

// Executes instructions of a burst, as long as they are in the page of the next address and use
// registers only or read RAM, and one more of the page.
#[inline(always)]
fn run_page(from: Stretch, made: &mut u64, regs: &mut Regs, bus: &mut BoardBus) -> Option<Stretch>
    requires { from.left < made.old }
    ensures ran { (k : ℕ) × (k + left_of result + made.old ≡ from.left + 1 + made.new)
        × ((gates : ℕ) → length bus.old.ram.bytes ≤ gates
        → ExecutesMany gates k (at_pc regs.old from.pc) (bus_seen ⟦<dyn Device as Device>⟧ bus.old)
        (reached result regs.new) (bus_seen ⟦<dyn Device as Device>⟧ bus.new)) }
    ensures size { length bus.new.ram.bytes ≡ length bus.old.ram.bytes }
    ensures less { left_of result ≤ from.left }
    ensures within { made.new ≤ made.old }
{
    let mut at = from;
    let page = at.pc / PAGE as u32;
    let entries = bus.ram.code_of(page);
    if entries.len() != WORDS || at.pc % 4 != 0 {
        return run_first(at, made, regs, bus);
    }
    loop {
        let insn = copied(&entries[at.pc as usize % PAGE / 4]);
        let progress = run_reading(at.pc, regs, insn, bus);
        let Progress::Executed(next) = progress else {
            return run_left(progress, at, made, regs, insn, bus);
        };
        at = onward(next, at.left, regs)?;
        if !is_word_of(page, at.pc) {
            return Some(at);
        }
    }
}

// Executes at most `most` instructions, and returns how many. It stops before an instruction that
// can't be fetched or causes an exception. No gate is below the end of RAM, so a word that can be
// fetched is at no gate, and nothing here asks for one.
#[inline(never)]
fn run_words(regs: &mut Regs, bus: &mut BoardBus, most: u64) -> u64
    requires { Unit {0} }
    ensures ran { (gates : ℕ) → length bus.old.ram.bytes ≤ gates
        → ExecutesMany gates result regs.old (bus_seen ⟦<dyn Device as Device>⟧ bus.old)
        regs.new (bus_seen ⟦<dyn Device as Device>⟧ bus.new) }
    ensures within { result ≤ most }
{
    let mut made = most;
    let mut burst = onward(regs.pc, most, regs);
    while let Some(from) = burst {
        burst = run_page(from, &mut made, regs, bus);
    }
    made
}

/// Executes at most `most` instructions of an actor, as long as each can be fetched and causes no
/// exception. The gates come after RAM, so none of them is at a gate. Returns how many it executed.
#[inline(always)]
pub fn execute_many(world: &mut World, who: &Actor, most: u64) -> u64
    requires there { IsThere (world_seen ⟦<dyn Device as Device>⟧ world.old) who.now }
    requires ram { length world.old.bus.ram.bytes ≤ (board_rules world.old.board).gates_start }
    ensures ran { RanMany result who.now (world_seen ⟦<dyn Device as Device>⟧ world.old)
        (world_seen ⟦<dyn Device as Device>⟧ world.new) }
    ensures within { result ≤ most }
    ensures out { world.new.out ≡ world.old.out }
{
    match who {
        Actor::Task(id) => run_words(world.kern.regs_of(*id), &mut world.bus, most),
        Actor::Interrupt => match world.watch.regs_mut() {
            Some(regs) => run_words(regs, &mut world.bus, most),
            None => unreachable!(),
        },
    }
}
