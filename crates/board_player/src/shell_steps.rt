//! A step of the shell's task, by the shell's phase.

ghost use Rattle.std.specs.Prelude.{◌≡◌, ◌<◌, ◌≤◌, true, None, Ok, take, IfOk, OnOk, OnErr};
ghost use Rattle.wind_base.specs.Limits.{most_steps, longest_line};
ghost use Rattle.con_line.specs.Lines.{first_line};
ghost use Rattle.live_loading.specs.KernelWorldObjects.{IsReady};
ghost use Rattle.live_loading.specs.KernelWorldActor.TheVariants as actors;
ghost use Rattle.wind_machine.specs.Good.{Good};
ghost use Rattle.wind_machine.specs.Processor.{gate_under};
ghost use Rattle.wind_machine.specs.ActorSteps.{prompt_step, read_step, eval_step, shell_step, file_for as file_for_lem};
ghost use Rattle.wind_machine.specs.Machine.{gate_may, phase_may};
ghost use Rattle.wind_machine.specs.Replies.{shell_reply};
ghost use Rattle.wind_machine.specs.declared.phase.Phase.TheVariants as phases;
ghost use Rattle.board_actors.specs.StepReply.{reply_of};
ghost use Rattle.board_actors.specs.declared.step_kind.StepKind.TheVariants as kinds;
ghost use Rattle.board_player.specs.Inside.{inside, parts_seen, IsSpacious};
ghost use Rattle.board_player.specs.Going.{OnlyStepped};

use crate::parts::Parts;
use crate::task_steps::{end, run};
use board_actors::{StepKind, give_back, listen, start_revocable_step, start_step};
use con_line::{Console, LINE_ROOM};
use id_table::Ident;
use wind_base::NoMemory;
use wind_base::text::add;
use wind_machine::Phase;
use wind_outside::Device;

// The shell writes its prompt, and waits for the console if there is no finished line.
#[tactic(auto, using(crate::proofs::Beginning::good_world))]
fn prompt(parts: &mut Parts)
    requires good { Good (inside parts.old) }
    requires few { parts.old.clock.steps < most_steps }
    requires space { IsSpacious parts.old }
    ensures step { parts_seen ⟦<dyn Device as Device>⟧ parts.new
        ≡ prompt_step (parts_seen ⟦<dyn Device as Device>⟧ parts.old) }
    ensures space { IsSpacious parts.new }
{
    start_step(&mut parts.world, Ident::shell());
    let has_line = parts.console.has_line();
    add(&mut parts.world.out, b"-> ");
    parts.shell.prompt(has_line);
    if !has_line {
        listen(&mut parts.world.kern);
    }
    end(parts, Ident::shell());
}

// Copies the first finished line to the beginning of `room`, and returns its length in bytes: 0 if
// there is no finished line.
fn copy_line(console: &Console, room: &mut [u8; LINE_ROOM]) -> usize
    ensures line { take result room.new ≡ first_line console.now }
    ensures short { result ≤ longest_line }
{
    match console.first_line(room) {
        Some(len) => len as usize,
        None => 0,
    }
}

// The shell takes a line and reads it. If memory runs out, nothing changes.
#[tactic(auto, using(crate::proofs::Beginning::good_world))]
fn read(parts: &mut Parts) -> Result<(), NoMemory>
    requires good { Good (inside parts.old) }
    requires few { parts.old.clock.steps < most_steps }
    requires space { IsSpacious parts.old }
    ensures ok { OnOk result (parts_seen ⟦<dyn Device as Device>⟧ parts.new
        ≡ read_step (parts_seen ⟦<dyn Device as Device>⟧ parts.old)) }
    ensures err { OnErr result (parts_seen ⟦<dyn Device as Device>⟧ parts.new
        ≡ parts_seen ⟦<dyn Device as Device>⟧ parts.old) }
    ensures space { IsSpacious parts.new }
{
    let mut line = [0; LINE_ROOM];
    let len = copy_line(&parts.console, &mut line);
    let kept = start_revocable_step(&mut parts.world, &mut parts.spare, Ident::shell());
    if parts
        .shell
        .read(parts.alloc, &line[..len], &mut parts.world.out)
        .is_err()
    {
        give_back(&mut parts.world, &mut parts.spare, kept);
        return Err(NoMemory);
    }
    parts.console.drop_line();
    end(parts, Ident::shell());
    Ok(())
}

// The shell goes on with its first statement. If memory runs out, nothing changes.
#[tactic(auto, using(crate::proofs::Beginning::good_world))]
fn evaluate(parts: &mut Parts) -> Result<(), NoMemory>
    requires good { Good (inside parts.old) }
    requires few { parts.old.clock.steps < most_steps }
    requires space { IsSpacious parts.old }
    requires phase { parts.old.shell.phase ≡ phases.Eval }
    ensures ok { OnOk result (parts_seen ⟦<dyn Device as Device>⟧ parts.new
        ≡ eval_step (parts_seen ⟦<dyn Device as Device>⟧ parts.old)) }
    ensures err { OnErr result (parts_seen ⟦<dyn Device as Device>⟧ parts.new
        ≡ parts_seen ⟦<dyn Device as Device>⟧ parts.old) }
    ensures space { IsSpacious parts.new }
{
    let kept = start_revocable_step(&mut parts.world, &mut parts.spare, Ident::shell());
    if parts.shell.evaluate(parts.alloc, &mut parts.world).is_err() {
        give_back(&mut parts.world, &mut parts.spare, kept);
        return Err(NoMemory);
    }
    end(parts, Ident::shell());
    Ok(())
}

/// Makes the shell's step, by its phase. If memory runs out, nothing changes.
#[inline(never)]
pub(crate) fn run_shell(parts: &mut Parts) -> Result<StepKind, NoMemory>
    requires good { Good (inside parts.old) }
    requires few { parts.old.clock.steps < most_steps }
    requires space { IsSpacious parts.old }
    requires ready { IsReady parts.old.world.kern 1 }
    requires asks { file_for_lem (parts_seen ⟦<dyn Device as Device>⟧ parts.old) 1 ≡ None }
    ensures ok { OnOk result (parts_seen ⟦<dyn Device as Device>⟧ parts.new
        ≡ shell_step parts.old.shell.phase (parts_seen ⟦<dyn Device as Device>⟧ parts.old)) }
    ensures reply { IfOk result (λ kind. reply_of kind
        ≡ shell_reply parts.old.shell.phase (parts_seen ⟦<dyn Device as Device>⟧ parts.old)) }
    ensures memory { OnErr result (phase_may parts.old.shell.phase
        (gate_may (gate_under (parts_seen ⟦<dyn Device as Device>⟧ parts.old).world (actors.Task 1))) ≡ true) }
    ensures err { OnErr result (parts_seen ⟦<dyn Device as Device>⟧ parts.new
        ≡ parts_seen ⟦<dyn Device as Device>⟧ parts.old) }
    ensures only { result ≡ Ok kinds.Instruction → OnlyStepped parts.old.world.kern parts.new.world.kern 1 }
    ensures watch { result ≡ Ok kinds.Instruction → parts.new.world.watch ≡ parts.old.world.watch }
    ensures objects { result ≡ Ok kinds.Instruction → parts.new.world.objects ≡ parts.old.world.objects }
    ensures space { IsSpacious parts.new }
{
    match parts.shell.phase() {
        Phase::Prompt => {
            prompt(parts);
            Ok(StepKind::Other(None))
        }
        Phase::Read => {
            read(parts)?;
            Ok(StepKind::Other(None))
        }
        Phase::Eval => {
            evaluate(parts)?;
            Ok(StepKind::Other(None))
        }
        Phase::Call => run(parts, Ident::shell()),
    }
}
