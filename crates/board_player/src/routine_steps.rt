//! A step of the active interrupt routine.

ghost use Rattle.std.specs.Prelude.{◌≡◌, ◌<◌, true};
ghost use Rattle.wind_base.specs.Limits.{most_steps};
ghost use Rattle.wind_machine.specs.Good.{Good};
ghost use Rattle.wind_machine.specs.ActorSteps.{routine_step};
ghost use Rattle.wind_machine.specs.Next.{is_active};
ghost use Rattle.wind_machine.specs.Replies.{routine_reply};
ghost use Rattle.wind_machine.specs.Reserving.{drop_all as drop_all_lem};
ghost use Rattle.board_actors.specs.StepReply.{reply_of};
ghost use Rattle.board_actors.specs.declared.step_kind.StepKind.TheVariants as kinds;
ghost use Rattle.board_player.specs.Inside.{inside, parts_seen, IsSpacious};
ghost use Rattle.board_player.specs.Going.{IsRoutine};

use crate::parts::Parts;
use board_actors::{StepKind, run_routine, start_routine_step};
use wind_outside::Device;

/// Makes a step of the active interrupt routine. After an instruction that caused no exception, the
/// routine is still active, and no task has a reservation.
#[tactic(auto, using(crate::proofs::Beginning::good_world))]
#[inline(never)]
pub(crate) fn step_routine(parts: &mut Parts) -> StepKind
    requires active { is_active (parts_seen ⟦<dyn Device as Device>⟧ parts.old).world ≡ true }
    requires good { Good (inside parts.old) }
    requires few { parts.old.clock.steps < most_steps }
    requires space { IsSpacious parts.old }
    ensures step { parts_seen ⟦<dyn Device as Device>⟧ parts.new
        ≡ routine_step (parts_seen ⟦<dyn Device as Device>⟧ parts.old) }
    ensures reply { reply_of result ≡ routine_reply (parts_seen ⟦<dyn Device as Device>⟧ parts.old) }
    ensures routine { result ≡ kinds.Instruction → IsRoutine parts.new.world.kern parts.new.world.watch.level }
    ensures kern { result ≡ kinds.Instruction → parts.new.world.kern ≡ drop_all_lem parts.old.world.kern }
    ensures objects { result ≡ kinds.Instruction → parts.new.world.objects ≡ parts.old.world.objects }
    ensures space { IsSpacious parts.new }
{
    start_routine_step(&mut parts.world);
    let kind = run_routine(parts.alloc, &mut parts.shell, &mut parts.world);
    parts.clock.step();
    kind
}
