//! A step of an actor, a task or the active interrupt routine: what it does at a gate, or one
//! instruction.

ghost use Rattle.std.specs.Prelude.{◌≡◌, ◌+◌, ◌^◌, ◌<◌, ◌≤◌, [], true, false, None, IfOk, OnOk, OnErr, is_some, slice_index};
ghost use Rattle.wind_base.specs.OutBuf.{KeepsSpace};
ghost use Rattle.wind_core.specs.State.{Lives, IsKern, task_of};
ghost use Rattle.board_bus.specs.Access.{board_meaning, fetched};
ghost use Rattle.ppc_core.specs.Instructions.{exec_of};
ghost use Rattle.live_loading.specs.KernelWorldActors.{Acts, MayCall, is_interrupt};
ghost use Rattle.live_loading.specs.KernelWorldSeen.{world_seen, world_with};
ghost use Rattle.live_loading.specs.KernelWorldAllowed.{may_exhaust_memory};
ghost use Rattle.wind_machine.specs.KernelCallsCalls.{file_wanted, made};
ghost use Rattle.live_loading.specs.KernelWorldActor.TheVariants as actors;
ghost use Rattle.wind_machine.specs.KernelCallsSpace.{HoldsSpace};
ghost use Rattle.wind_machine.specs.Part.{part_of, writing};
ghost use Rattle.wind_machine.specs.Processor.{trapped, trap_text, bus_of, own_return as own_return_lem, is_return as is_return_lem, return_part, without_own, called as called_lem, gate_part, word_part, regs_of, actor_part};
ghost use Rattle.wind_machine.specs.Replies.{actor_reply, gate_reply};
ghost use Rattle.wind_machine.specs.ActorSteps.{IsOnProcessor};
ghost use Rattle.board_actors.specs.Instructions.{word_kind};
ghost use Rattle.board_actors.specs.Running.{IsThere, Ran, OnlyRegs};
ghost use Rattle.board_actors.specs.StepReply.{reply_of};
ghost use Rattle.board_actors.specs.StepStart.{IsEarlyWorld};
ghost use Rattle.board_actors.specs.declared.step_kind.StepKind.TheVariants as kinds;

use crate::reserving::drop_own;
use crate::routine::{drop_reserve, next_routine};
use crate::shell::Shell;
use crate::shell_task::abort;
use crate::step_kind::StepKind;
use crate::text::{add_exception, add_routine_exception};
use id_table::Ident;
use live_loading::{Actor, Reply, World, end_task, gate_at, is_call, make_call};
use ppc_core::{Trap, exec};
use std::alloc::Global;
use wind_base::{Gate, NoMemory};
use wind_outside::Device;

/// The program counter of an actor.
#[inline(always)]
pub fn counter(world: &World, who: &Actor) -> u32
    ensures { result ≡ (regs_of (world_seen ⟦<dyn Device as Device>⟧ world.now) who.now).pc }
{
    match who {
        Actor::Task(id) => match world.kern.task(*id) {
            Some(task) => task.regs.pc,
            None => 0,
        },
        Actor::Interrupt => match world.watch.regs() {
            Some(regs) => regs.pc,
            None => 0,
        },
    }
}

// Writes the line that reports an exception of a task.
fn tell(world: &mut World, who: Ident, trap: Trap)
    requires { 160 ≤ world.old.out.room }
    ensures exception { world_seen ⟦<dyn Device as Device>⟧ world.new
        ≡ writing (world_seen ⟦<dyn Device as Device>⟧ world.old) (trap_text trap (task_of world.old.kern.tasks who)) }
    ensures space { KeepsSpace world.old.out world.new.out }
{
    if let Some(task) = world.kern.task(who) {
        add_exception(
            &mut world.out,
            trap,
            &task.name,
            task.id.get(),
            task.regs.pc,
        );
    }
}

// A task causes an exception: it is suspended, and keeps its registers. If it was in a call of the
// shell, the shell aborts the line.
fn fault_of_task(shell: &mut Shell, world: &mut World, who: Ident, trap: Trap)
    requires live { Lives world.old.kern who }
    requires since { world.old.kern.next_since + 2 < 2 ^ 64 }
    requires room { 160 ≤ world.old.out.room }
    ensures part { part_of shell.new (world_seen ⟦<dyn Device as Device>⟧ world.new)
        ≡ trapped trap shell.old (world_seen ⟦<dyn Device as Device>⟧ world.old) (actors.Task who) }
    ensures space { KeepsSpace world.old.out world.new.out }
{
    tell(world, who, trap);
    if who == Ident::shell() {
        shell.abort();
        abort(&mut world.kern);
    } else {
        world.kern.suspend(who);
    }
}

// An exception is reported. A task is suspended; an interrupt routine is given up, and the next
// listed one becomes active.
#[cold]
#[inline(never)]
fn fault(shell: &mut Shell, world: &mut World, who: Actor, trap: Trap)
    requires live { Acts world.old.kern who }
    requires since { world.old.kern.next_since + 2 < 2 ^ 64 }
    requires room { 160 ≤ world.old.out.room }
    ensures part { part_of shell.new (world_seen ⟦<dyn Device as Device>⟧ world.new)
        ≡ trapped trap shell.old (world_seen ⟦<dyn Device as Device>⟧ world.old) who }
    ensures space { KeepsSpace world.old.out world.new.out }
{
    match who {
        Actor::Task(id) => fault_of_task(shell, world, id, trap),
        Actor::Interrupt => {
            let at = counter(world, &Actor::Interrupt);
            add_routine_exception(&mut world.out, trap, at);
            next_routine(world);
        }
    }
}

// The gate at which a call of the shell returns, or another task ends.
fn return_of(who: Ident) -> Gate
    ensures { result ≡ own_return_lem (actors.Task who) }
{
    if who == Ident::shell() {
        Gate::ShellReturn
    } else {
        Gate::TaskReturn
    }
}

// The same, or the gate at which an interrupt routine returns.
fn own_return(who: &Actor) -> Gate
    ensures { result ≡ own_return_lem who.now }
{
    match who {
        Actor::Task(id) => return_of(*id),
        Actor::Interrupt => Gate::InterruptReturn,
    }
}

// Whether the gate is the actor's own return.
fn is_return(gate: Gate, who: &Actor) -> bool
    ensures { result ≡ is_return_lem gate who.now }
{
    gate.number() == own_return(who).number()
}

// r3 of a task.
fn answer_of(world: &World, who: Ident) -> u32
    ensures { result
        ≡ slice_index (regs_of (world_seen ⟦<dyn Device as Device>⟧ world.now) (actors.Task who)).gpr 3 }
{
    match world.kern.task(who) {
        Some(task) => task.regs.gpr[3],
        None => 0,
    }
}

// A call of the shell returns with r3 as its value; any other task ends.
fn return_of_task(shell: &mut Shell, world: &mut World, who: Ident)
    requires live { Lives world.old.kern who }
    requires phase { IsOnProcessor shell.old.phase (actors.Task who) }
    requires since { world.old.kern.next_since < 2 ^ 63 }
    ensures part { part_of shell.new (world_seen ⟦<dyn Device as Device>⟧ world.new)
        ≡ return_part shell.old (world_seen ⟦<dyn Device as Device>⟧ world.old) (actors.Task who) }
    ensures out { world.new.out ≡ world.old.out }
{
    if who == Ident::shell() {
        shell.give_value(answer_of(world, who));
        drop_own(&mut world.kern, who);
    } else {
        end_task(world, who);
    }
}

// What an actor does at its own return: a task as above; an interrupt routine is done.
fn return_from(shell: &mut Shell, world: &mut World, who: &Actor)
    requires live { Acts world.old.kern who.now }
    requires phase { IsOnProcessor shell.old.phase who.now }
    requires since { world.old.kern.next_since < 2 ^ 63 }
    ensures part { part_of shell.new (world_seen ⟦<dyn Device as Device>⟧ world.new)
        ≡ return_part shell.old (world_seen ⟦<dyn Device as Device>⟧ world.old) who.now }
    ensures out { world.new.out ≡ world.old.out }
{
    match who {
        Actor::Task(id) => return_of_task(shell, world, *id),
        Actor::Interrupt => next_routine(world),
    }
}

// Drops the reservation of an actor.
fn drop_of(world: &mut World, who: &Actor)
    ensures world { world_seen ⟦<dyn Device as Device>⟧ world.new
        ≡ without_own (world_seen ⟦<dyn Device as Device>⟧ world.old) who.now }
    ensures out { world.new.out ≡ world.old.out }
{
    match who {
        Actor::Task(id) => drop_own(&mut world.kern, *id),
        Actor::Interrupt => drop_reserve(&mut world.watch),
    }
}

// Makes a kernel call, and returns its reply. If memory runs out, nothing changes.
fn call(alloc: Global, world: &mut World, who: &Actor, gate: Gate) -> Result<Reply, NoMemory>
    requires unasked { file_wanted gate (world_seen ⟦<dyn Device as Device>⟧ world.old) who.now ≡ None }
    requires live { Acts world.old.kern who.now }
    requires ready { MayCall world.old.kern who.now }
    requires early { IsEarlyWorld (world_with [] world.old) }
    requires room { 4096 ≤ world.old.out.room }
    ensures ok { OnOk result (world_seen ⟦<dyn Device as Device>⟧ world.new
        ≡ called_lem gate (world_seen ⟦<dyn Device as Device>⟧ world.old) who.now) }
    ensures reply { IfOk result
        (λ r. r ≡ (made gate (world_seen ⟦<dyn Device as Device>⟧ world.old) who.now).reply) }
    ensures memory { OnErr result (may_exhaust_memory gate ≡ true) }
    ensures task { OnErr result (is_interrupt who.now ≡ false) }
    ensures err { OnErr result (world_seen ⟦<dyn Device as Device>⟧ world.new
        ≡ world_seen ⟦<dyn Device as Device>⟧ world.old) }
    ensures space { HoldsSpace world.old.out world.new.out }
{
    let reply = make_call(alloc, world, gate, who)?;
    drop_of(world, who);
    Ok(reply)
}

/// What an actor does at a gate. A kernel call returns its reply. Host memory may run out only if
/// the gate's call may run out of it and a task makes it; nothing changes then.
#[inline(always)]
pub fn at_gate(
    alloc: Global,
    shell: &mut Shell,
    world: &mut World,
    who: &Actor,
    gate: Gate,
) -> Result<Option<Reply>, NoMemory>
    requires phase { IsOnProcessor shell.old.phase who.now }
    requires unasked { file_wanted gate (world_seen ⟦<dyn Device as Device>⟧ world.old) who.now ≡ None }
    requires live { Acts world.old.kern who.now }
    requires ready { MayCall world.old.kern who.now }
    requires early { IsEarlyWorld (world_with [] world.old) }
    requires room { 4096 ≤ world.old.out.room }
    ensures ok { OnOk result (part_of shell.new (world_seen ⟦<dyn Device as Device>⟧ world.new)
        ≡ gate_part gate shell.old (world_seen ⟦<dyn Device as Device>⟧ world.old) who.now) }
    ensures reply { IfOk result
        (λ r. r ≡ gate_reply gate (world_seen ⟦<dyn Device as Device>⟧ world.old) who.now) }
    ensures memory { OnErr result (may_exhaust_memory gate ≡ true) }
    ensures task { OnErr result (is_interrupt who.now ≡ false) }
    ensures err { OnErr result (world_seen ⟦<dyn Device as Device>⟧ world.new
        ≡ world_seen ⟦<dyn Device as Device>⟧ world.old) }
    ensures shell { OnErr result (shell.new ≡ shell.old) }
    ensures space { HoldsSpace world.old.out world.new.out }
{
    if is_return(gate, who) {
        return_from(shell, world, who);
        return Ok(None);
    }
    if is_call(gate) {
        let reply = call(alloc, world, who, gate)?;
        return Ok(Some(reply));
    }
    fault(shell, world, *who, Trap::Access);
    Ok(None)
}

// Executes one instruction of an actor. A trap changes nothing.
#[inline(always)]
fn run_word(world: &mut World, who: &Actor, word: u32) -> Result<(), Trap>
    requires there { IsThere (world_seen ⟦<dyn Device as Device>⟧ world.old) who.now }
    requires kern { IsKern world.old.kern }
    ensures ran { Ran (exec_of board_meaning (regs_of (world_seen ⟦<dyn Device as Device>⟧ world.old) who.now) word
        (bus_of (world_seen ⟦<dyn Device as Device>⟧ world.old))) result who.now
        (world_seen ⟦<dyn Device as Device>⟧ world.old) (world_seen ⟦<dyn Device as Device>⟧ world.new) }
    ensures out { world.new.out ≡ world.old.out }
{
    match who {
        Actor::Task(id) => exec(world.kern.regs_of(*id), word, &mut world.bus),
        Actor::Interrupt => match world.watch.regs_mut() {
            Some(regs) => exec(regs, word, &mut world.bus),
            None => unreachable!(),
        },
    }
}

/// Executes the instruction of an actor at this address. If its word can't be fetched, that is an
/// access to nothing.
#[tactic(auto, using(crate::proofs::Executed::instruction_so, crate::proofs::Executed::other_so, crate::proofs::Executed::only_regs, crate::proofs::Executed::there_acts))]
#[inline(always)]
pub fn execute(shell: &mut Shell, world: &mut World, who: &Actor, at: u32) -> StepKind
    requires there { IsThere (world_seen ⟦<dyn Device as Device>⟧ world.old) who.now }
    requires kern { IsKern world.old.kern }
    requires since { world.old.kern.next_since + 2 < 2 ^ 64 }
    requires room { 160 ≤ world.old.out.room }
    ensures part { part_of shell.new (world_seen ⟦<dyn Device as Device>⟧ world.new)
        ≡ word_part (fetched (bus_of (world_seen ⟦<dyn Device as Device>⟧ world.old)) at) shell.old
        (world_seen ⟦<dyn Device as Device>⟧ world.old) who.now }
    ensures kind { result ≡ word_kind (fetched (bus_of (world_seen ⟦<dyn Device as Device>⟧ world.old)) at)
        (regs_of (world_seen ⟦<dyn Device as Device>⟧ world.old) who.now)
        (bus_of (world_seen ⟦<dyn Device as Device>⟧ world.old)) }
    ensures reply { None ≡ reply_of result }
    ensures registers { result ≡ kinds.Instruction → OnlyRegs (world_seen ⟦<dyn Device as Device>⟧ world.old)
        (world_seen ⟦<dyn Device as Device>⟧ world.new) who.now }
    ensures space { KeepsSpace world.old.out world.new.out }
{
    let Some(word) = world.bus.fetch(at) else {
        fault(shell, world, *who, Trap::Access);
        return StepKind::Other(None);
    };
    match run_word(world, who, word) {
        Ok(()) => StepKind::Instruction,
        Err(trap) => {
            fault(shell, world, *who, trap);
            StepKind::Other(None)
        }
    }
}

/// Makes a step of the active interrupt routine: a call, if it is at a gate, else an instruction.
/// After an instruction that caused no exception, only the routine's registers and the bus have
/// changed.
#[tactic(auto, unfolding(wind_machine::specs::Processor::actor_part, wind_machine::specs::Replies::actor_reply))]
pub fn run_routine(alloc: Global, shell: &mut Shell, world: &mut World) -> StepKind
    requires active { is_some world.old.watch.level ≡ true }
    requires early { IsEarlyWorld (world_with [] world.old) }
    requires room { 4096 ≤ world.old.out.room }
    ensures part { part_of shell.new (world_seen ⟦<dyn Device as Device>⟧ world.new)
        ≡ actor_part shell.old (world_seen ⟦<dyn Device as Device>⟧ world.old) actors.Interrupt }
    ensures reply { reply_of result
        ≡ actor_reply (world_seen ⟦<dyn Device as Device>⟧ world.old) actors.Interrupt }
    ensures registers { result ≡ kinds.Instruction → OnlyRegs (world_seen ⟦<dyn Device as Device>⟧ world.old)
        (world_seen ⟦<dyn Device as Device>⟧ world.new) actors.Interrupt }
    ensures space { HoldsSpace world.old.out world.new.out }
{
    let at = counter(world, &Actor::Interrupt);
    let Some(gate) = gate_at(world.board, at) else {
        return execute(shell, world, &Actor::Interrupt, at);
    };
    match at_gate(alloc, shell, world, &Actor::Interrupt, gate) {
        Ok(reply) => StepKind::Other(reply),
        Err(NoMemory) => unreachable!(),
    }
}
