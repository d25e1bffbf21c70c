//! Settling priorities at the end of a step.

ghost use Rattle.std.specs.Prelude.{◌≡◌, ◌+◌, ◌<◌, ◌^◌, true};
ghost use Rattle.std.specs.List.{All};
ghost use Rattle.wind_core.specs.State.{WakesAhead};
ghost use Rattle.wind_machine.specs.Machine.{settled_state};
ghost use Rattle.board_player.specs.Inside.{inside, parts_seen, IsSpacious};
ghost use Rattle.board_player.specs.Settling.{CanSettle, IsQuiet};

use crate::parts::Parts;
use tick_file::Event;
use wind_core::Kern;
use wind_outside::Device;

/// Settles priorities at the end of a step. After an instruction that causes no exception this is
/// left out: it would change nothing.
#[inline(never)]
pub(crate) fn settle(parts: &mut Parts)
    requires left { CanSettle (inside parts.old) }
    requires space { IsSpacious parts.old }
    ensures step { parts_seen ⟦<dyn Device as Device>⟧ parts.new
        ≡ settled_state (parts_seen ⟦<dyn Device as Device>⟧ parts.old) }
    ensures space { IsSpacious parts.new }
{
    parts.world.objects.mutexes.settle(&mut parts.world.kern);
}

// `true` guarantees that the next tick wakes no task. `false` guarantees nothing.
fn wakes_nobody(kern: &Kern) -> bool
    requires { kern.now.tick < 2 ^ 63 }
    ensures { result ≡ true → All (WakesAhead (kern.now.tick + 1)) kern.now.tasks }
{
    kern.facts();
    kern.delays().first_due(kern.ticks() + 1).is_none()
}

/// `true` guarantees that the event wakes no task and starts none: then priorities stay settled.
/// `false` guarantees nothing.
pub(crate) fn is_quiet(kern: &Kern, event: Event) -> bool
    requires { kern.now.tick < 2 ^ 63 }
    ensures { result ≡ true → IsQuiet kern.now event }
{
    match event {
        Event::Tick => wakes_nobody(kern),
        Event::Rx(_) => false,
        Event::Irq(_) => true,
    }
}
