//! The world at the start.

ghost use Rattle.std.specs.Prelude.{◌≡◌, ◌+◌, ◌<◌, ◌≤◌, ◌++◌, [], length, IfOk, IfErr, OnOk};
ghost use Rattle.wind_base.specs.{Limits.most_slots, Boards.board_rules, Gates.gates};
ghost use Rattle.wind_outside.specs.Devices.{slots_of};
ghost use Rattle.module_loader.specs.Modules.{modules_on};
ghost use Rattle.isr_watch.specs.{State.no_watch, Calls.routine_return};
ghost use Rattle.kernel_world.specs.{Objects.no_objects, Opening.{shell_record as shell_record_lem, opening_kern as opening_kern_lem, most_output, opening_part as opening_part_lem, zeros, opening_world}, Seen.world_seen};
ghost use Rattle.module_image.specs.Opening.{symbols_of_gate, gate_symbols as gate_symbols_lem};

use crate::board_gates::gate_address;
use crate::objects::{self, Objects};
use crate::starting::no_regs;
use crate::world::World;
use board_bus::BoardBus;
use board_mem::Ram;
use dev_irq::Irqs;
use isr_watch::Watch;
use mem_partition::{Class, GRAIN, Part};
use module_loader::Modules;
use std::alloc::Global;
use symbol_table::{SymKind, Symbol, Symbols};
use task_block::NewTask;
use wind_base::limits::{CHUNK_BYTES, INTERRUPT_STACK_BYTES, POOL_START, SHELL_STACK_BYTES};
use wind_base::{
    BoardKind, BoardRules, Gate, Name, NoMemory, OutBuf, Pri, Profile, ShortName, gate_name,
};
use wind_core::Kern;
use wind_outside::{Device, Slots};

/// The room, in bytes, for what one step writes. Each byte of the console echoes at most three
/// bytes, and a newline may be supplied after a chunk.
pub const OUTPUT_BYTES: u32 = 3 * (CHUNK_BYTES as u32 + 1);

// The priority of the shell's task.
fn shell_priority() -> Pri
    ensures { result ≡ 1 }
{
    match Pri::new(1) {
        Some(pri) => pri,
        None => unreachable!(),
    }
}

// The record of the shell's task at its start.
fn shell_record() -> NewTask
    ensures { result ≡ shell_record_lem }
{
    NewTask {
        name: ShortName::cut(b"tShell"),
        entry: 0,
        stack: POOL_START,
        stack_size: SHELL_STACK_BYTES,
        pri: shell_priority(),
        regs: no_regs(),
    }
}

// The kernel at the start: it holds the shell's task.
fn opening_kern(alloc: Global) -> Result<Kern, NoMemory>
    ensures { IfOk result (λ k. k ≡ opening_kern_lem) }
{
    let mut kern = Kern::new(alloc)?;
    let Ok(_) = kern.spawn_record(shell_record()) else {
        unreachable!()
    };
    Ok(kern)
}

// The partition at the start: it holds the stack of the shell's task and the interrupt stack.
#[tactic(auto, using(crate::proofs::Boards::blocks_few))]
fn opening_part(alloc: Global, board: BoardKind) -> Result<Part, NoMemory>
    ensures { IfOk result (λ p. p ≡ opening_part_lem board) }
{
    let BoardRules {
        pool_end,
        blocks,
        ..
    } = board.rules();
    let mut part = Part::with_limit(alloc, POOL_START, pool_end, blocks)?;
    let Ok(_) = part.alloc(SHELL_STACK_BYTES, GRAIN, Class::Kernel) else {
        unreachable!()
    };
    let Ok(_) = part.alloc(INTERRUPT_STACK_BYTES, GRAIN, Class::Kernel) else {
        unreachable!()
    };
    Ok(part)
}

// Adds the symbol of a board's gate, if it has a name.
fn add_gate(alloc: Global, syms: &mut Symbols, board: BoardKind, gate: Gate) -> Result<(), NoMemory>
    requires { 0 < syms.old.spare }
    ensures ok { OnOk result (syms.new.list ≡ syms.old.list ++ symbols_of_gate (board_rules board).gates_start gate) }
    ensures spare { OnOk result (syms.old.spare ≤ syms.new.spare + 1) }
{
    let Some(name) = gate_name(gate.number()) else {
        return Ok(());
    };
    let Ok(name) = Name::new(alloc, name.as_bytes()) else {
        return Err(NoMemory);
    };
    syms.add(Symbol {
        name,
        value: gate_address(board, gate),
        kind: SymKind::TextSym,
        global: true,
        group: 0,
    });
    Ok(())
}

// RAM with the given number of zero bytes.
#[tactic(auto, unfolding(crate::specs::Opening::zeros))]
fn cleared_ram(alloc: Global, bytes: u32) -> Result<Ram, NoMemory>
    ensures { IfOk result (λ ram. ram.bytes ≡ zeros bytes) }
{
    Ram::new(alloc, bytes)
}

// The symbols of the kernel's calls on a board.
fn gate_symbols(alloc: Global, board: BoardKind) -> Result<Symbols, NoMemory>
    ensures { IfOk result (λ t. t.list ≡ gate_symbols_lem (board_rules board).gates_start gates) }
{
    let mut syms = Symbols::new(alloc)?;
    let all = Gate::all();
    let Ok(()) = syms.reserve(all.len() as u32) else {
        return Err(NoMemory);
    };
    for gate in all {
        add_gate(alloc, &mut syms, board, *gate)?;
    }
    Ok(syms)
}

// The kernel at the start, with its objects.
#[derive(Drop)]
struct Started {
    watch: Watch,
    objects: Objects,
    kern: Kern,
}

// Makes the watchdogs of a board, whose routines return to its gate.
fn opening_watch(alloc: Global, board: BoardKind) -> Result<Watch, NoMemory>
    ensures { IfOk result (λ w. w ≡ no_watch (routine_return board)) }
{
    let mut watch = Watch::reserved(alloc)?;
    watch.set_return(gate_address(board, Gate::InterruptReturn));
    Ok(watch)
}

// Makes the kernel with the shell's task and no objects, under a rule of inheritance, on a board of
// a kind.
fn start(alloc: Global, profile: Profile, board: BoardKind) -> Result<Started, NoMemory>
    ensures kern { IfOk result (λ s. s.kern ≡ opening_kern_lem) }
    ensures objects { IfOk result (λ s. s.objects ≡ no_objects profile) }
    ensures watch { IfOk result (λ s. s.watch ≡ no_watch (routine_return board)) }
{
    Ok(Started {
        watch: opening_watch(alloc, board)?,
        objects: objects::reserved(alloc, profile)?,
        kern: opening_kern(alloc)?,
    })
}

// What modules are loaded into: the partition, the symbols and the modules.
#[derive(Drop)]
struct Loadable {
    part: Part,
    syms: Symbols,
    mods: Modules,
}

// Makes the board's partition and symbols, without modules.
fn make_loadable(alloc: Global, board: BoardKind) -> Result<Loadable, NoMemory>
    ensures part { IfOk result (λ l. l.part ≡ opening_part_lem board) }
    ensures symbols { IfOk result (λ l. l.syms.list ≡ gate_symbols_lem (board_rules board).gates_start gates) }
    ensures modules { IfOk result (λ l. l.mods ≡ modules_on board []) }
{
    Ok(Loadable {
        part: opening_part(alloc, board)?,
        syms: gate_symbols(alloc, board)?,
        mods: Modules::new(alloc, board)?,
    })
}

impl World {
    /// Makes the world at the start, over these devices, under a rule of inheritance, on a board of
    /// a kind. If memory runs out, the devices come back unchanged.
    pub fn boot(
        alloc: Global,
        slots: Slots,
        profile: Profile,
        board: BoardKind,
    ) -> Result<World, Slots>
        requires { length slots.items ≤ most_slots }
        ensures ok { IfOk result (λ w. world_seen ⟦<dyn Device as Device>⟧ w
            ≡ opening_world (slots_of kind_of words_of slots.items) profile board) }
        ensures room { IfOk result (λ w. most_output ≤ w.out.room) }
        ensures err { IfErr result (λ back. back ≡ slots) }
    {
        // The smallest part comes first: if a later part runs out of memory, all earlier parts are
        // freed.
        let Ok(out) = OutBuf::reserved(alloc, OUTPUT_BYTES) else {
            return Err(slots);
        };
        let Ok(ram) = cleared_ram(alloc, board.rules().ram_bytes) else {
            return Err(slots);
        };
        let Ok(loadable) = make_loadable(alloc, board) else {
            return Err(slots);
        };
        let Ok(started) = start(alloc, profile, board) else {
            return Err(slots);
        };
        Ok(World {
            kern: started.kern,
            objects: started.objects,
            part: loadable.part,
            syms: loadable.syms,
            mods: loadable.mods,
            bus: BoardBus::new(ram, slots),
            irqs: Irqs::new(),
            out,
            names: 1,
            watch: started.watch,
            int_errno: 0,
            board,
        })
    }
}
