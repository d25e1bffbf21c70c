//! The step that loads a file.

ghost use Rattle.std.specs.Prelude.{◌≡◌, ◌<◌, ◌↔◌, true, Some, IfOk, OnOk, OnErr, IsSome};
ghost use Rattle.wind_base.specs.Limits.{most_steps};
ghost use Rattle.wind_base.specs.declared.gate.Gate.TheVariants as gates;
ghost use Rattle.live_loading.specs.KernelWorldActor.TheVariants as actors;
ghost use Rattle.wind_machine.specs.LiveLoadingSaid.{said_of};
ghost use Rattle.wind_machine.specs.Good.{Good};
ghost use Rattle.wind_machine.specs.declared.phase.Phase.TheVariants as phases;
ghost use Rattle.wind_machine.specs.ActorSteps.{file_in, file_for as file_for_lem, load_step, shell_world};
ghost use Rattle.wind_machine.specs.Machine.{file_asked, settled_state};
ghost use Rattle.wind_machine.specs.LiveLoadingReplies.{load_reply};
ghost use Rattle.wind_machine.specs.Processor.{gate_under};
ghost use Rattle.board_player.specs.Inside.{inside, parts_seen, IsSpacious};
ghost use Rattle.board_player.specs.Settling.{CanSettle};

use crate::parts::Parts;
use crate::settling::settle;
use crate::task_steps::end;
use board_actors::{counter, drop_own, give_back, start_revocable_step};
use id_table::Ident;
use live_loading::{Actor, FileAnswer, Reply, file_wanted, gate_at, kernel_load};
use wind_base::{Gate, Name, NoMemory};
use wind_machine::Phase;
use wind_outside::Device;

// Whether the shell's task is at the gate of `ld`.
fn is_at_load(parts: &Parts) -> bool
    ensures { (result ≡ true)
        ↔ (gate_under (parts_seen ⟦<dyn Device as Device>⟧ parts.now).world (actors.Task 1)
        ≡ Some gates.Ld) }
{
    match gate_at(
        parts.world.board,
        counter(&parts.world, &Actor::Task(Ident::shell())),
    ) {
        Some(gate) => gate == Gate::Ld,
        None => false,
    }
}

// The file that the shell's task needs at its place in a call.
#[tactic(auto, using(crate::proofs::Asked::at_load_is, crate::proofs::Asked::elsewhere_at))]
#[inline(never)]
fn file_in_call(parts: &Parts) -> Result<Option<Name>, NoMemory>
    ensures file { IfOk result (λ o. o ≡ file_in phases.Call (parts_seen ⟦<dyn Device as Device>⟧ parts.now).world) }
    ensures memory { OnErr result (IsSome (file_in phases.Call (parts_seen ⟦<dyn Device as Device>⟧ parts.now).world)) }
{
    if !is_at_load(parts) {
        return Ok(None);
    }
    file_wanted(
        parts.alloc,
        &parts.world,
        Gate::Ld,
        &Actor::Task(Ident::shell()),
    )
}

// The file that the shell's task needs, by its phase.
fn shells_file(parts: &Parts) -> Result<Option<Name>, NoMemory>
    ensures file { IfOk result (λ o. o ≡ file_in parts.now.shell.phase
        (parts_seen ⟦<dyn Device as Device>⟧ parts.now).world) }
    ensures memory { OnErr result (IsSome (file_in parts.now.shell.phase
        (parts_seen ⟦<dyn Device as Device>⟧ parts.now).world)) }
{
    match parts.shell.phase() {
        Phase::Call => file_in_call(parts),
        Phase::Prompt | Phase::Read | Phase::Eval => Ok(None),
    }
}

/// The name of the file that the step of this task needs, if it needs one.
#[inline(always)]
pub(crate) fn file_for(parts: &Parts, who: Ident) -> Result<Option<Name>, NoMemory>
    ensures file { IfOk result (λ o. o ≡ file_for_lem (parts_seen ⟦<dyn Device as Device>⟧ parts.now) who) }
    ensures memory { OnErr result (IsSome (file_for_lem (parts_seen ⟦<dyn Device as Device>⟧ parts.now) who)) }
{
    if who == Ident::shell() {
        shells_file(parts)
    } else {
        Ok(None)
    }
}

// The shell's task loads the file with this name, given what the folder answers about that file.
// Returns the reply. If memory runs out, nothing changes.
#[tactic(auto, using(crate::proofs::Beginning::good_world, crate::proofs::Asked::wanted, crate::proofs::Asked::asker_ready))]
fn load_file(parts: &mut Parts, name: &Name, file: &FileAnswer) -> Result<Reply, NoMemory>
    requires good { Good (inside parts.old) }
    requires few { parts.old.clock.steps < most_steps }
    requires space { IsSpacious parts.old }
    requires asked { file_asked (parts_seen ⟦<dyn Device as Device>⟧ parts.old) ≡ Some name.now }
    ensures ok { OnOk result (parts_seen ⟦<dyn Device as Device>⟧ parts.new
        ≡ load_step (said_of file.now) (parts_seen ⟦<dyn Device as Device>⟧ parts.old) name.now) }
    ensures reply { IfOk result (λ r. r ≡ load_reply
        (shell_world (parts_seen ⟦<dyn Device as Device>⟧ parts.old)) (said_of file.now)) }
    ensures err { OnErr result (parts_seen ⟦<dyn Device as Device>⟧ parts.new
        ≡ parts_seen ⟦<dyn Device as Device>⟧ parts.old) }
    ensures space { IsSpacious parts.new }
{
    let kept = start_revocable_step(&mut parts.world, &mut parts.spare, Ident::shell());
    let Ok(reply) = kernel_load(parts.alloc, &mut parts.world, name, file) else {
        give_back(&mut parts.world, &mut parts.spare, kept);
        return Err(NoMemory);
    };
    drop_own(&mut parts.world.kern, Ident::shell());
    end(parts, Ident::shell());
    Ok(reply)
}

/// The shell's task loads the file with this name, given what the folder answers about that file,
/// and priorities are settled. Returns the reply. If memory runs out, nothing changes.
pub(crate) fn load(parts: &mut Parts, name: &Name, file: &FileAnswer) -> Result<Reply, NoMemory>
    requires good { Good (inside parts.old) }
    requires few { parts.old.clock.steps < most_steps }
    requires space { IsSpacious parts.old }
    requires asked { file_asked (parts_seen ⟦<dyn Device as Device>⟧ parts.old) ≡ Some name.now }
    requires left { CanSettle (load_step (said_of file.now) (parts_seen ⟦<dyn Device as Device>⟧ parts.old) name.now) }
    ensures ok { OnOk result (parts_seen ⟦<dyn Device as Device>⟧ parts.new
        ≡ settled_state (load_step (said_of file.now) (parts_seen ⟦<dyn Device as Device>⟧ parts.old) name.now)) }
    ensures reply { IfOk result (λ r. r ≡ load_reply
        (shell_world (parts_seen ⟦<dyn Device as Device>⟧ parts.old)) (said_of file.now)) }
    ensures err { OnErr result (parts_seen ⟦<dyn Device as Device>⟧ parts.new
        ≡ parts_seen ⟦<dyn Device as Device>⟧ parts.old) }
    ensures space { IsSpacious parts.new }
{
    let reply = load_file(parts, name, file)?;
    settle(parts);
    Ok(reply)
}
