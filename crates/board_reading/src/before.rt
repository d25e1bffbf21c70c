//! What is read of a board before its next step.

ghost use Rattle.std.specs.Prelude.{◌≡◌, ◌<◌, ◌==◌, IfOk, OnErr, true};
ghost use Rattle.std.specs.List.{list_any};
ghost use Rattle.wind_base.specs.Limits.{most_steps};
ghost use Rattle.kernel_world.specs.Seen.{world_seen};
ghost use Rattle.board_trace.specs.WindMachineMachine.{actor_of as actor_of_lem, may_exhaust_memory};
ghost use Rattle.board_player.specs.Seen.{seen};
ghost use Rattle.ppc_core.specs.Registers.{in_ra_or_0};
ghost use Rattle.board_trace.specs.Causes.{target_of, effective_address as effective_address_lem, word_there};
ghost use Rattle.board_trace.specs.Before.{before_step, call_there, counter_at, gate_there, has_interrupt_key as has_interrupt_key_lem, is_on_processor as is_on_processor_lem, owner_named as owner_named_lem};

use board_player::{Board, Next, Phase, brought, chunk_len};
use board_trace::{BeforeStep, mutex_of};
use id_table::Ident;
use kernel_world::{Actor, Call, World, caller_regs, gate_at, is_shell, read_call};
use ppc_word::fields::{ra, rb, si};
use tick_file::Event;
use wind_base::{Gate, NoMemory, Regs};
use wind_outside::Device;

// The primary opcode whose loads and stores add two registers.
const INDEXED: u32 = 31;

/// Who makes a step, if a task or a routine does.
pub fn actor_of(next: &Next) -> Option<Actor>
    ensures { result ≡ actor_of_lem next.now }
{
    match next {
        Next::Routine => Some(Actor::Interrupt),
        Next::Act(who) => Some(Actor::Task(*who)),
        Next::Load(_) => Some(Actor::Task(Ident::shell())),
        Next::Deliver(_) | Next::Come(_) | Next::Arrive | Next::Jump(_) | Next::Over => None,
    }
}

// Whether a task or routine makes instructions and calls; the shell's task does so only during a
// call of the shell.
fn is_on_processor(phase: Phase, who: &Actor) -> bool
    ensures { result ≡ is_on_processor_lem phase who.now }
{
    !is_shell(who) || matches!(phase, Phase::Call)
}

// The program counter of who makes a step.
fn counter_of(world: &World, phase: Phase, next: &Next) -> Option<u32>
    ensures { result ≡ counter_at phase (world_seen ⟦<dyn Device as Device>⟧ world.now) (actor_of_lem next.now) }
{
    let who = actor_of(next)?;
    if !is_on_processor(phase, &who) {
        return None;
    }
    Some(caller_regs(&world.kern, &world.watch, &who).pc)
}

// The call that who makes a step makes at a gate.
fn call_at(world: &World, next: &Next, gate: Option<Gate>) -> Option<Call>
    ensures { result ≡ call_there (world_seen ⟦<dyn Device as Device>⟧ world.now) (actor_of_lem next.now) gate }
{
    read_call(world, gate?, &actor_of(next)?)
}

/// The owner of the mutex that a call names.
pub(crate) fn owner_named(world: &World, call: &Option<Call>) -> Option<u32>
    ensures { result ≡ owner_named_lem (world_seen ⟦<dyn Device as Device>⟧ world.now) call.now }
{
    match call {
        Some(call) => world.objects.mutexes.owner(mutex_of(call)?),
        None => None,
    }
}

// The gate at an address.
fn gate_there_at(world: &World, at: Option<u32>) -> Option<Gate>
    ensures { result ≡ gate_there (world_seen ⟦<dyn Device as Device>⟧ world.now) at }
{
    gate_at(world.board, at?)
}

// The word to execute: none at a gate, or where none can be fetched.
fn word_at(world: &World, at: Option<u32>, gate: Option<Gate>) -> Option<u32>
    ensures { result ≡ word_there (world_seen ⟦<dyn Device as Device>⟧ world.now) at gate }
{
    match (at, gate) {
        (Some(at), None) => world.bus.fetch(at),
        (None, _) | (Some(_), Some(_)) => None,
    }
}

// (RA|0) of a word: the content of a register, or 0 in place of that of register 0.
#[tactic(auto, using(crate::proofs::Targets::base_is))]
fn base_of(regs: &Regs, word: u32) -> u32
    ensures { result ≡ in_ra_or_0 regs.now word }
{
    let register = ra(word);
    if register == 0 {
        0
    } else {
        regs.gpr[register as usize]
    }
}

// The effective address of the load or store that a word is.
#[tactic(auto, using(crate::proofs::Targets::indexed_is))]
fn effective_address(regs: &Regs, word: u32) -> u32
    ensures { result ≡ effective_address_lem regs.now word }
{
    let base = base_of(regs, word);
    if word >> 26 == INDEXED {
        base.wrapping_add(regs.gpr[rb(word) as usize])
    } else {
        base.wrapping_add(si(word))
    }
}

// The effective address of the word that a task or routine executes.
fn target_at(world: &World, next: &Next, word: Option<u32>) -> Option<u32>
    ensures { result ≡ target_of (world_seen ⟦<dyn Device as Device>⟧ world.now) (actor_of_lem next.now) word }
{
    let who = actor_of(next)?;
    let regs = caller_regs(&world.kern, &world.watch, &who);
    Some(effective_address(&regs, word?))
}

// Whether one of these bytes is 0x03, the interrupt key's.
fn has_interrupt(bytes: &[u8]) -> bool
    ensures { result ≡ list_any (λ b. b == 3) bytes.now }
{
    bytes.iter().any(|byte| *byte == 0x03)
}

// Whether one of the bytes that an event brings is the interrupt key's. These bytes are left.
fn brings_interrupt_key(event: Event, left: &[u8]) -> bool
    ensures { result ≡ has_interrupt_key_lem (Next.Come event) left.now }
{
    match event {
        Event::Rx(n) => has_interrupt(&left[..brought(left, n)]),
        Event::Tick | Event::Irq(_) => false,
    }
}

// Whether one of the bytes that arrive in a step is the interrupt key's. These bytes are left.
fn has_interrupt_key(next: &Next, left: &[u8]) -> bool
    ensures { result ≡ has_interrupt_key_lem next.now left.now }
{
    match next {
        Next::Arrive => has_interrupt(&left[..chunk_len(left).0]),
        Next::Come(event) => brings_interrupt_key(*event, left),
        _ => false,
    }
}

/// Reads what a trace needs of a board before its next step.
pub fn look_before(board: &Board) -> Result<BeforeStep, NoMemory>
    requires { (seen ⟦<dyn Device as Device>⟧ board.now).steps < most_steps }
    ensures value { IfOk result (λ c. c ≡ before_step (seen ⟦<dyn Device as Device>⟧ board.now)) }
    ensures no_memory { OnErr result (may_exhaust_memory (seen ⟦<dyn Device as Device>⟧ board.now) ≡ true) }
{
    let next = board.what_comes()?;
    let world = board.world();
    let actor = actor_of(&next);
    let at = counter_of(world, board.phase(), &next);
    let gate = gate_there_at(world, at);
    let call = call_at(world, &next, gate);
    let word = word_at(world, at, gate);
    let target = target_at(world, &next, word);
    let owner = owner_named(world, &call);
    let left = board.left();
    let interrupt_key = has_interrupt_key(&next, left);
    Ok(BeforeStep {
        next,
        actor,
        at,
        gate,
        call,
        word,
        target,
        owner,
        time: board.time(),
        step: board.steps() + 1,
        phase: board.phase(),
        left: left.len() as u64,
        interrupt_key,
    })
}
