//! Instructions of one task or interrupt routine, made at once while nothing else can come.

ghost use Rattle.std.specs.Prelude.{◌≡◌, ◌+◌, ◌<◌, ◌≤◌, true, false, Some, None};
ghost use Rattle.wind_base.specs.Limits.{most_steps};
ghost use Rattle.wind_base.specs.declared.regs.Regs.{Regs};
ghost use Rattle.wind_core.specs.Moves.{set_regs};
ghost use Rattle.wind_machine.specs.Good.{Good};
ghost use Rattle.wind_machine.specs.Silent.{SilentSteps};
ghost use Rattle.wind_machine.specs.Events.{next_event};
ghost use Rattle.wind_machine.specs.Next.{is_open as is_open_lem, console_is_due as console_is_due_lem};
ghost use Rattle.wind_machine.specs.ActorSteps.{IsOnProcessor};
ghost use Rattle.live_loading.specs.KernelWorldActor.TheVariants as actors;
ghost use Rattle.board_player.specs.Inside.{inside, parts_seen, IsSpacious};
ghost use Rattle.board_player.specs.Bursts.{RunsOn, RoutineRunsOn, HasRoom, MovesLast};
ghost use Rattle.board_player.specs.Knowing.{may_deliver as may_deliver_lem};
ghost use Rattle.board_player.specs.Going.{IsRunner, IsRoutine, IsKnown};

use crate::order::{Known, Running, console_is_due, may_deliver};
use crate::parts::Parts;
use board_actors::execute_many;
use id_table::Ident;
use live_loading::Actor;
use tick_file::Event;
use wind_machine::Phase;
use wind_outside::Device;

// Whether a task's steps are instructions and kernel calls. For the shell's task, they are only
// during a call.
fn makes_instructions(parts: &Parts, who: Ident) -> bool
    ensures { result ≡ true → IsOnProcessor parts.now.shell.phase (actors.Task who) }
{
    who != Ident::shell() || matches!(parts.shell.phase(), Phase::Call)
}

// Whether neither an interrupt of a device nor the console can be due.
fn is_quiet(parts: &Parts, is_open: bool) -> bool
    requires { is_open ≡ is_open_lem (parts_seen ⟦<dyn Device as Device>⟧ parts.now) }
    ensures delivery { result ≡ true → false ≡ may_deliver_lem (parts_seen ⟦<dyn Device as Device>⟧ parts.now) }
    ensures console { result ≡ true → false ≡ console_is_due_lem (parts_seen ⟦<dyn Device as Device>⟧ parts.now) }
{
    !may_deliver(parts, is_open) && !console_is_due(parts, is_open)
}

// Whether the running task goes on: it ran last, it wrote nothing, and only an event of the tick
// file can be due.
#[tactic(auto, using(crate::proofs::Running::opens, crate::proofs::TaskBursts::alone_by))]
fn runs_on(parts: &Parts, now: Running, who: Ident) -> bool
    requires good { Good (inside parts.now) }
    requires runner { IsRunner parts.now.world.kern parts.now.world.watch.level now }
    requires own { now.who ≡ Some who }
    ensures { result ≡ true → RunsOn (parts_seen ⟦<dyn Device as Device>⟧ parts.now) who }
{
    if !makes_instructions(parts, who) || !parts.world.out.bytes().is_empty() {
        return false;
    }
    match parts.world.kern.last() {
        Some(last) if last == who => is_quiet(parts, now.is_open),
        _ => false,
    }
}

// How many steps, at most `most`, come before an event at this time is due.
fn steps_before(next: (u64, Event), time: u128, most: u64) -> u64
    ensures room { 0 < result → time + result ≤ next.0 }
    ensures within { result ≤ most }
{
    match u128::from(next.0).checked_sub(time) {
        Some(left) if left < u128::from(most) => left as u64,
        Some(_) => most,
        None => 0,
    }
}

// How many steps, at most `most`, come before the next event is due.
fn room_before_event(parts: &Parts, is_open: bool, most: u64) -> u64
    requires { is_open ≡ is_open_lem (parts_seen ⟦<dyn Device as Device>⟧ parts.now) }
    ensures room { HasRoom is_open (next_event (parts_seen ⟦<dyn Device as Device>⟧ parts.now))
        parts.now.clock.time result }
    ensures within { result ≤ most }
{
    if !is_open {
        return most;
    }
    match parts.schedule.next() {
        Some(next) => steps_before(next, parts.clock.time, most),
        None => most,
    }
}

// Makes at most `most` instructions of a task that goes on. Returns how many it made.
fn go_on(parts: &mut Parts, who: Ident, most: u64) -> u64
    requires good { Good (inside parts.old) }
    requires few { parts.old.clock.steps + most ≤ most_steps }
    requires space { IsSpacious parts.old }
    requires on { RunsOn (parts_seen ⟦<dyn Device as Device>⟧ parts.old) who }
    requires room { HasRoom (is_open_lem (parts_seen ⟦<dyn Device as Device>⟧ parts.old))
        (next_event (parts_seen ⟦<dyn Device as Device>⟧ parts.old)) parts.old.clock.time most }
    ensures made { SilentSteps result (parts_seen ⟦<dyn Device as Device>⟧ parts.old)
        (parts_seen ⟦<dyn Device as Device>⟧ parts.new) }
    ensures within { result ≤ most }
    ensures only { 0 < result → MovesLast (parts_seen ⟦<dyn Device as Device>⟧ parts.old).world
        (parts_seen ⟦<dyn Device as Device>⟧ parts.new).world }
    ensures regs { (regs : Regs) × (parts.new.world.kern ≡ set_regs parts.old.world.kern who regs) }
    ensures watch { parts.new.world.watch ≡ parts.old.world.watch }
    ensures space { IsSpacious parts.new }
{
    let made = execute_many(&mut parts.world, &Actor::Task(who), most);
    parts.clock.advance(made);
    made
}

// Makes at most `most` instructions of the running task, if it goes on. Returns how many it made.
fn burst_of_task(parts: &mut Parts, now: Running, most: u64) -> u64
    requires good { Good (inside parts.old) }
    requires few { parts.old.clock.steps + most ≤ most_steps }
    requires space { IsSpacious parts.old }
    requires runner { IsRunner parts.old.world.kern parts.old.world.watch.level now }
    ensures made { SilentSteps result (parts_seen ⟦<dyn Device as Device>⟧ parts.old)
        (parts_seen ⟦<dyn Device as Device>⟧ parts.new) }
    ensures within { result ≤ most }
    ensures only { 0 < result → MovesLast (parts_seen ⟦<dyn Device as Device>⟧ parts.old).world
        (parts_seen ⟦<dyn Device as Device>⟧ parts.new).world }
    ensures space { IsSpacious parts.new }
    ensures runner { IsRunner parts.new.world.kern parts.new.world.watch.level now }
{
    let Some(who) = now.who else {
        return 0;
    };
    let is_open = now.is_open;
    if !runs_on(parts, now, who) {
        return 0;
    }
    let room = room_before_event(parts, is_open, most);
    go_on(parts, who, room)
}

// Whether the active interrupt routine wrote nothing in the step before.
fn routine_runs_on(parts: &Parts) -> bool
    requires { IsRoutine parts.now.world.kern parts.now.world.watch.level }
    ensures { result ≡ true → RoutineRunsOn (parts_seen ⟦<dyn Device as Device>⟧ parts.now) }
{
    parts.world.out.bytes().is_empty()
}

// Makes at most `most` instructions of the active interrupt routine, if it wrote nothing in the
// step before. Nothing else can come meanwhile. Returns how many it made.
fn burst_of_routine(parts: &mut Parts, most: u64) -> u64
    requires good { Good (inside parts.old) }
    requires few { parts.old.clock.steps + most ≤ most_steps }
    requires space { IsSpacious parts.old }
    requires routine { IsRoutine parts.old.world.kern parts.old.world.watch.level }
    ensures made { SilentSteps result (parts_seen ⟦<dyn Device as Device>⟧ parts.old)
        (parts_seen ⟦<dyn Device as Device>⟧ parts.new) }
    ensures within { result ≤ most }
    ensures only { 0 < result → MovesLast (parts_seen ⟦<dyn Device as Device>⟧ parts.old).world
        (parts_seen ⟦<dyn Device as Device>⟧ parts.new).world }
    ensures space { IsSpacious parts.new }
    ensures routine { IsRoutine parts.new.world.kern parts.new.world.watch.level }
{
    if !routine_runs_on(parts) {
        return 0;
    }
    let made = execute_many(&mut parts.world, &Actor::Interrupt, most);
    parts.clock.advance(made);
    made
}

/// Makes at most `most` instructions of whoever is known to make the next steps, as long as nothing
/// else can come. Returns how many it made: 0 if nothing is known.
#[inline(never)]
pub(crate) fn burst(parts: &mut Parts, known: Known, most: u64) -> u64
    requires good { Good (inside parts.old) }
    requires few { parts.old.clock.steps + most ≤ most_steps }
    requires space { IsSpacious parts.old }
    requires known { IsKnown parts.old.world.kern parts.old.world.watch.level known }
    ensures made { SilentSteps result (parts_seen ⟦<dyn Device as Device>⟧ parts.old)
        (parts_seen ⟦<dyn Device as Device>⟧ parts.new) }
    ensures within { result ≤ most }
    ensures only { 0 < result → MovesLast (parts_seen ⟦<dyn Device as Device>⟧ parts.old).world
        (parts_seen ⟦<dyn Device as Device>⟧ parts.new).world }
    ensures space { IsSpacious parts.new }
    ensures known { IsKnown parts.new.world.kern parts.new.world.watch.level known }
{
    match known {
        Known::Nothing | Known::Called(_) => 0,
        Known::Runner(now) => burst_of_task(parts, now, most),
        Known::Routine => burst_of_routine(parts, most),
    }
}
