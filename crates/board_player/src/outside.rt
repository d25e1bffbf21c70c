//! What comes from outside: events, chunks of the console, and time.

ghost use Rattle.std.specs.Prelude.{◌≡◌, ◌+◌, ◌^◌, ◌<◌, ◌≤◌, false, Some, length};
ghost use Rattle.wind_base.specs.Limits.{most_steps, longest_chunk};
ghost use Rattle.wind_core.specs.State.{Lives};
ghost use Rattle.wind_machine.specs.Good.{Good};
ghost use Rattle.board_bus.specs.Seen.{bus_seen};
ghost use Rattle.wind_machine.specs.Events.{arrival, ticked, received, lines_raised, interrupted, event_step, delivery_step, jump as jump_lem};
ghost use Rattle.wind_machine.specs.Next.{is_active, due_delivery};
ghost use Rattle.board_player.specs.Inside.{chunk_sinces, inside, parts_seen, IsSpacious};
ghost use Rattle.board_player.specs.Moves.{heard_bytes};

use crate::parts::Parts;
use board_actors::{INTERRUPT_TOP, brought, chunk_len, drop_all, hear_chunk};
use board_bus::BoardBus;
use dev_irq::Irqs;
use live_loading::is_device;
use tick_file::Event;
use wind_outside::Device;

// Hears the next `len` bytes, and then a newline if one is supplied.
fn hear_bytes(parts: &mut Parts, len: usize, is_unended: bool)
    requires live { Lives parts.old.world.kern 1 }
    requires since { parts.old.world.kern.next_since + chunk_sinces < 2 ^ 64 }
    requires space { IsSpacious parts.old }
    requires short { len ≤ longest_chunk }
    requires within { len ≤ length parts.old.feed }
    ensures heard { parts_seen ⟦<dyn Device as Device>⟧ parts.new
        ≡ heard_bytes (parts_seen ⟦<dyn Device as Device>⟧ parts.old) len is_unended }
    ensures space { IsSpacious parts.new }
{
    parts.world.out.clear();
    hear_chunk(
        &parts.feed.left()[..len],
        is_unended,
        &mut parts.console,
        &mut parts.shell,
        &mut parts.world.kern,
        &mut parts.world.out,
    );
    parts.feed.advance(len);
}

/// The next chunk of the console arrives.
#[inline(never)]
pub(crate) fn arrive(parts: &mut Parts)
    requires good { Good (inside parts.old) }
    requires few { parts.old.clock.steps < most_steps }
    requires space { IsSpacious parts.old }
    ensures step { parts_seen ⟦<dyn Device as Device>⟧ parts.new
        ≡ arrival (parts_seen ⟦<dyn Device as Device>⟧ parts.old) }
    ensures space { IsSpacious parts.new }
{
    let (len, is_unended) = chunk_len(parts.feed.left());
    hear_bytes(parts, len, is_unended);
    parts.clock.event();
}

// A tick occurs.
fn tick(parts: &mut Parts)
    requires since { parts.old.world.kern.next_since < 2 ^ 63 }
    requires tick { parts.old.world.kern.tick < 2 ^ 63 }
    requires idle { is_active (parts_seen ⟦<dyn Device as Device>⟧ parts.old).world ≡ false }
    requires few { parts.old.clock.steps < most_steps }
    requires space { IsSpacious parts.old }
    ensures step { parts_seen ⟦<dyn Device as Device>⟧ parts.new
        ≡ ticked (parts_seen ⟦<dyn Device as Device>⟧ parts.old) }
    ensures space { IsSpacious parts.new }
{
    parts.world.out.clear();
    parts.world.kern.tick();
    let now = parts.world.kern.ticks();
    parts.world.watch.due(now, INTERRUPT_TOP);
    parts.clock.event();
}

// `n` bytes arrive, as the tick file asks.
fn receive(parts: &mut Parts, n: u32)
    requires live { Lives parts.old.world.kern 1 }
    requires since { parts.old.world.kern.next_since + chunk_sinces < 2 ^ 64 }
    requires few { parts.old.clock.steps < most_steps }
    requires space { IsSpacious parts.old }
    ensures step { parts_seen ⟦<dyn Device as Device>⟧ parts.new
        ≡ received (parts_seen ⟦<dyn Device as Device>⟧ parts.old) n }
    ensures space { IsSpacious parts.new }
{
    let len = brought(parts.feed.left(), n);
    hear_bytes(parts, len, false);
    parts.clock.event();
}

// Counts an interrupt of the device in a slot, if there is one.
fn raise(irqs: &mut Irqs, bus: &BoardBus, slot: u32)
    requires { Unit {0} }
    ensures { irqs.new ≡ lines_raised irqs.old (bus_seen ⟦<dyn Device as Device>⟧ bus.now).slots slot }
{
    if is_device(bus, slot) {
        irqs.raise(slot);
    }
}

// The device in a slot interrupts.
fn interrupt(parts: &mut Parts, slot: u32)
    requires few { parts.old.clock.steps < most_steps }
    requires space { IsSpacious parts.old }
    ensures step { parts_seen ⟦<dyn Device as Device>⟧ parts.new
        ≡ interrupted (parts_seen ⟦<dyn Device as Device>⟧ parts.old) slot }
    ensures space { IsSpacious parts.new }
{
    parts.world.out.clear();
    raise(&mut parts.world.irqs, &parts.world.bus, slot);
    parts.clock.event();
}

/// Delivers the interrupt that is due, of the device in this slot.
#[tactic(auto, using(crate::proofs::Delivering::idle_due))]
#[inline(never)]
pub(crate) fn deliver(parts: &mut Parts, slot: u32)
    requires due { due_delivery (parts_seen ⟦<dyn Device as Device>⟧ parts.old) ≡ Some slot }
    requires good { Good (inside parts.old) }
    requires few { parts.old.clock.steps < most_steps }
    requires space { IsSpacious parts.old }
    ensures step { parts_seen ⟦<dyn Device as Device>⟧ parts.new
        ≡ delivery_step (parts_seen ⟦<dyn Device as Device>⟧ parts.old) slot }
    ensures space { IsSpacious parts.new }
{
    drop_all(&mut parts.world.kern);
    parts.world.out.clear();
    parts
        .world
        .irqs
        .deliver(slot, &mut parts.world.watch, INTERRUPT_TOP);
    parts.clock.event();
}

/// The due event occurs.
#[tactic(auto, using(crate::proofs::Beginning::all_live))]
#[inline(never)]
pub(crate) fn come(parts: &mut Parts, event: Event)
    requires idle { is_active (parts_seen ⟦<dyn Device as Device>⟧ parts.old).world ≡ false }
    requires good { Good (inside parts.old) }
    requires few { parts.old.clock.steps < most_steps }
    requires space { IsSpacious parts.old }
    ensures step { parts_seen ⟦<dyn Device as Device>⟧ parts.new
        ≡ event_step (parts_seen ⟦<dyn Device as Device>⟧ parts.old) event }
    ensures space { IsSpacious parts.new }
{
    drop_all(&mut parts.world.kern);
    parts.schedule.advance();
    match event {
        Event::Tick => tick(parts),
        Event::Rx(n) => receive(parts, n),
        Event::Irq(slot) => interrupt(parts, slot),
    }
}

/// Moves board time to that of an event.
pub(crate) fn jump(parts: &mut Parts, time: u64)
    requires few { parts.old.clock.steps < most_steps }
    requires space { IsSpacious parts.old }
    ensures step { parts_seen ⟦<dyn Device as Device>⟧ parts.new
        ≡ jump_lem (parts_seen ⟦<dyn Device as Device>⟧ parts.old) time }
    ensures kern { parts.new.world.kern ≡ parts.old.world.kern }
    ensures watch { parts.new.world.watch ≡ parts.old.world.watch }
    ensures space { IsSpacious parts.new }
{
    parts.world.out.clear();
    parts.clock.jump(time);
}
