//! A step of a task: what it does at a gate, or an instruction.

ghost use Rattle.std.specs.Prelude.{◌≡◌, ◌^◌, ◌<◌, true, false, None, Ok, IfOk, OnOk, OnErr};
ghost use Rattle.wind_base.specs.Limits.{most_steps};
ghost use Rattle.wind_base.specs.Boards.{board_rules};
ghost use Rattle.wind_base.specs.Gates.{gate_at as gate_at_lem};
ghost use Rattle.wind_core.specs.State.{Lives};
ghost use Rattle.live_loading.specs.KernelWorldObjects.{IsReady};
ghost use Rattle.live_loading.specs.KernelWorldActor.TheVariants as actors;
ghost use Rattle.live_loading.specs.KernelWorldAllowed.{may_exhaust_memory as may_exhaust_memory_lem};
ghost use Rattle.wind_machine.specs.Good.{Good};
ghost use Rattle.wind_machine.specs.Processor.{gate_under, regs_of};
ghost use Rattle.wind_machine.specs.ActorSteps.{IsOnProcessor, task_step, file_for};
ghost use Rattle.wind_machine.specs.Machine.{gate_may};
ghost use Rattle.wind_machine.specs.Replies.{task_reply};
ghost use Rattle.board_actors.specs.StepReply.{reply_of};
ghost use Rattle.board_actors.specs.declared.step_kind.StepKind.TheVariants as kinds;
ghost use Rattle.board_player.specs.Inside.{inside, parts_seen, IsSpacious};
ghost use Rattle.board_player.specs.Going.{OnlyStepped, StandsAt};
ghost use Rattle.board_player.specs.Moves.{noted_step};

use crate::parts::Parts;
use board_actors::{
    StepKind, at_gate, counter, execute, give_back, start_revocable_step, start_step,
};
use id_table::Ident;
use live_loading::{Actor, Reply, gate_at, may_exhaust_memory};
use wind_base::{Gate, NoMemory};
use wind_outside::Device;

/// Ends the step of a task, which is now the one that ran last.
pub(crate) fn end(parts: &mut Parts, who: Ident)
    requires time { parts.old.clock.time < 2 ^ 65 }
    requires few { parts.old.clock.steps < most_steps }
    requires space { IsSpacious parts.old }
    ensures step { parts_seen ⟦<dyn Device as Device>⟧ parts.new
        ≡ noted_step (parts_seen ⟦<dyn Device as Device>⟧ parts.old) who }
    ensures space { IsSpacious parts.new }
{
    parts.world.kern.ran(who);
    parts.clock.step();
}

// Makes an instruction of a task that is at no gate.
#[tactic(auto, using(crate::proofs::Beginning::good_world))]
#[inline(always)]
fn run_word(parts: &mut Parts, who: Ident, at: u32) -> StepKind
    requires good { Good (inside parts.old) }
    requires few { parts.old.clock.steps < most_steps }
    requires space { IsSpacious parts.old }
    requires live { Lives parts.old.world.kern who }
    requires counter { at ≡ (regs_of (parts_seen ⟦<dyn Device as Device>⟧ parts.old).world (actors.Task who)).pc }
    requires gate { gate_at_lem (board_rules parts.old.world.board).gates_start at ≡ None }
    ensures step { parts_seen ⟦<dyn Device as Device>⟧ parts.new
        ≡ task_step (parts_seen ⟦<dyn Device as Device>⟧ parts.old) who }
    ensures reply { reply_of result ≡ task_reply (parts_seen ⟦<dyn Device as Device>⟧ parts.old) who }
    ensures only { result ≡ kinds.Instruction → OnlyStepped parts.old.world.kern parts.new.world.kern who }
    ensures watch { result ≡ kinds.Instruction → parts.new.world.watch ≡ parts.old.world.watch }
    ensures objects { result ≡ kinds.Instruction → parts.new.world.objects ≡ parts.old.world.objects }
    ensures space { IsSpacious parts.new }
{
    start_step(&mut parts.world, who);
    let kind = execute(&mut parts.shell, &mut parts.world, &Actor::Task(who), at);
    end(parts, who);
    kind
}

// What a task does at a gate whose call can't run out of memory. A call returns its reply.
#[tactic(auto, using(crate::proofs::Beginning::good_world))]
#[inline(never)]
fn run_sure_gate(parts: &mut Parts, who: Ident, at: u32, gate: Gate) -> Option<Reply>
    requires good { Good (inside parts.old) }
    requires few { parts.old.clock.steps < most_steps }
    requires space { IsSpacious parts.old }
    requires stands { StandsAt (parts_seen ⟦<dyn Device as Device>⟧ parts.old) who at gate }
    requires sure { may_exhaust_memory_lem gate ≡ false }
    ensures step { parts_seen ⟦<dyn Device as Device>⟧ parts.new
        ≡ task_step (parts_seen ⟦<dyn Device as Device>⟧ parts.old) who }
    ensures reply { result ≡ task_reply (parts_seen ⟦<dyn Device as Device>⟧ parts.old) who }
    ensures space { IsSpacious parts.new }
{
    let _ = at;
    let task = Actor::Task(who);
    start_step(&mut parts.world, who);
    match at_gate(parts.alloc, &mut parts.shell, &mut parts.world, &task, gate) {
        Ok(reply) => {
            end(parts, who);
            reply
        }
        Err(NoMemory) => unreachable!(),
    }
}

// What a task does at a gate whose call may run out of memory. A call returns its reply. If memory
// runs out, nothing changes: what undoes the call is held until then.
#[tactic(auto, using(crate::proofs::Beginning::good_world))]
#[inline(never)]
fn run_revocable_gate(
    parts: &mut Parts,
    who: Ident,
    at: u32,
    gate: Gate,
) -> Result<Option<Reply>, NoMemory>
    requires good { Good (inside parts.old) }
    requires few { parts.old.clock.steps < most_steps }
    requires space { IsSpacious parts.old }
    requires stands { StandsAt (parts_seen ⟦<dyn Device as Device>⟧ parts.old) who at gate }
    ensures ok { OnOk result (parts_seen ⟦<dyn Device as Device>⟧ parts.new
        ≡ task_step (parts_seen ⟦<dyn Device as Device>⟧ parts.old) who) }
    ensures reply { IfOk result (λ r. r ≡ task_reply (parts_seen ⟦<dyn Device as Device>⟧ parts.old) who) }
    ensures memory { OnErr result (may_exhaust_memory_lem gate ≡ true) }
    ensures err { OnErr result (parts_seen ⟦<dyn Device as Device>⟧ parts.new
        ≡ parts_seen ⟦<dyn Device as Device>⟧ parts.old) }
    ensures space { IsSpacious parts.new }
{
    let _ = at;
    let task = Actor::Task(who);
    let kept = start_revocable_step(&mut parts.world, &mut parts.spare, who);
    match at_gate(parts.alloc, &mut parts.shell, &mut parts.world, &task, gate) {
        Ok(reply) => {
            end(parts, who);
            Ok(reply)
        }
        Err(NoMemory) => {
            give_back(&mut parts.world, &mut parts.spare, kept);
            Err(NoMemory)
        }
    }
}

/// Makes a step of a task: what it does at a gate, or an instruction. Memory may run out only at a
/// gate whose call may run out of it, and nothing changes then.
#[inline(always)]
pub(crate) fn run(parts: &mut Parts, who: Ident) -> Result<StepKind, NoMemory>
    requires good { Good (inside parts.old) }
    requires few { parts.old.clock.steps < most_steps }
    requires space { IsSpacious parts.old }
    requires live { Lives parts.old.world.kern who }
    requires ready { IsReady parts.old.world.kern who }
    requires phase { IsOnProcessor parts.old.shell.phase (actors.Task who) }
    requires asks { file_for (parts_seen ⟦<dyn Device as Device>⟧ parts.old) who ≡ None }
    ensures ok { OnOk result (parts_seen ⟦<dyn Device as Device>⟧ parts.new
        ≡ task_step (parts_seen ⟦<dyn Device as Device>⟧ parts.old) who) }
    ensures reply { IfOk result (λ kind. reply_of kind
        ≡ task_reply (parts_seen ⟦<dyn Device as Device>⟧ parts.old) who) }
    ensures memory { OnErr result (gate_may
        (gate_under (parts_seen ⟦<dyn Device as Device>⟧ parts.old).world (actors.Task who)) ≡ true) }
    ensures err { OnErr result (parts_seen ⟦<dyn Device as Device>⟧ parts.new
        ≡ parts_seen ⟦<dyn Device as Device>⟧ parts.old) }
    ensures only { result ≡ Ok kinds.Instruction → OnlyStepped parts.old.world.kern parts.new.world.kern who }
    ensures watch { result ≡ Ok kinds.Instruction → parts.new.world.watch ≡ parts.old.world.watch }
    ensures objects { result ≡ Ok kinds.Instruction → parts.new.world.objects ≡ parts.old.world.objects }
    ensures space { IsSpacious parts.new }
{
    let at = counter(&parts.world, &Actor::Task(who));
    let Some(gate) = gate_at(parts.world.board, at) else {
        return Ok(run_word(parts, who, at));
    };
    if may_exhaust_memory(gate) {
        let reply = run_revocable_gate(parts, who, at, gate)?;
        return Ok(StepKind::Other(reply));
    }
    Ok(StepKind::Other(run_sure_gate(parts, who, at, gate)))
}
