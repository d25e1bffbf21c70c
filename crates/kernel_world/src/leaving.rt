//! The caller of a kernel call goes on after its gate.

ghost use Rattle.std.specs.Prelude.{◌≡◌};
ghost use Rattle.kernel_world.specs.Actors.{Acts};
ghost use Rattle.kernel_world.specs.Replies.{left_gate, level_by, past_gate as past_gate_lem};
ghost use Rattle.kernel_world.specs.Seen.{world_seen};

use crate::actor::Actor;
use crate::world::World;
use isr_watch::Watch;
use wind_outside::Device;

// The program counter of the active routine becomes its link register.
fn past_gate(watch: &mut Watch)
    ensures { watch.new ≡ level_by past_gate_lem watch.old }
{
    if let Some(regs) = watch.regs_mut() {
        regs.pc = regs.lr;
    }
}

/// The caller goes on after its gate.
pub fn leave_gate(w: &mut World, who: &Actor)
    requires { Acts w.old.kern who.now }
    ensures world { world_seen ⟦<dyn Device as Device>⟧ w.new
        ≡ left_gate (world_seen ⟦<dyn Device as Device>⟧ w.old) who.now }
    ensures out { w.new.out ≡ w.old.out }
{
    match who {
        Actor::Task(id) => w.kern.leave_gate(*id),
        Actor::Interrupt => past_gate(&mut w.watch),
    }
}
