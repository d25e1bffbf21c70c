//! How the step of a task begins, and how it is undone if it runs out of memory.

ghost use Rattle.std.specs.Prelude.{◌≡◌, ◌+◌, [], Some, length};
ghost use Rattle.live_loading.specs.KernelWorldKept.{ReservedBy};
ghost use Rattle.live_loading.specs.KernelWorldSeen.{world_seen, world_with};
ghost use Rattle.wind_machine.specs.Events.{cleared, unreserved_world};
ghost use Rattle.wind_machine.specs.ActorSteps.{at_step_start};
ghost use Rattle.board_actors.specs.StepStart.{kept_of as kept_of_lem, put_back as put_back_lem, restored, Readies, IsEarlyWorld};

use crate::reserving::{drop_all, drop_others, other_last};
use id_table::Ident;
use live_loading::World;
use std::mem::swap;
use wind_base::{OutBuf, Regs};
use wind_core::Kern;
use wind_outside::Device;

/// Begins the step of a task: clears the output, and drops the reservations of all other tasks.
#[tactic(auto, using(crate::proofs::Readied::readies))]
#[inline]
pub fn start_step(world: &mut World, who: Ident)
    requires reserved { ReservedBy world.old.kern.last world.old.kern }
    requires early { IsEarlyWorld (world_with [] world.old) }
    ensures world { world_seen ⟦<dyn Device as Device>⟧ world.new
        ≡ at_step_start (world_seen ⟦<dyn Device as Device>⟧ world.old) who }
    ensures ready { Readies (world_with [] world.old) (world_with [] world.new) who }
    ensures bytes { world.new.out.bytes ≡ [] }
    ensures room { world.new.out.room ≡ world.old.out.room + length world.old.out.bytes }
{
    drop_others(&mut world.kern, who);
    world.out.clear();
}

/// Begins the step of an interrupt routine: clears the output, and drops the reservations of all
/// tasks.
#[tactic(auto, using(crate::proofs::Readied::all_ready))]
pub fn start_routine_step(world: &mut World)
    requires reserved { ReservedBy world.old.kern.last world.old.kern }
    requires early { IsEarlyWorld (world_with [] world.old) }
    ensures world { world_seen ⟦<dyn Device as Device>⟧ world.new
        ≡ cleared (unreserved_world (world_seen ⟦<dyn Device as Device>⟧ world.old)) }
    ensures ready { IsEarlyWorld (world_with [] world.new) }
    ensures watch { world.new.watch ≡ world.old.watch }
    ensures bytes { world.new.out.bytes ≡ [] }
    ensures room { world.new.out.room ≡ world.old.out.room + length world.old.out.bytes }
{
    drop_all(&mut world.kern);
    world.out.clear();
}

// The task whose reservation this step drops, with its registers.
fn kept_of(kern: &Kern, who: Ident) -> Option<(Ident, Regs)>
    ensures { result ≡ kept_of_lem kern.now who }
{
    let last = other_last(kern, who)?;
    match kern.task(last) {
        Some(task) => Some((task.id, task.regs)),
        None => None,
    }
}

/// Begins a step that may run out of memory, and returns what undoes this beginning. Meanwhile
/// `spare` holds what was written before.
#[tactic(auto, using(crate::proofs::Readied::readies, crate::proofs::Readied::world_back))]
pub fn start_revocable_step(
    world: &mut World,
    spare: &mut OutBuf,
    who: Ident,
) -> Option<(Ident, Regs)>
    requires reserved { ReservedBy world.old.kern.last world.old.kern }
    requires early { IsEarlyWorld (world_with [] world.old) }
    ensures world { world_seen ⟦<dyn Device as Device>⟧ world.new
        ≡ at_step_start (world_seen ⟦<dyn Device as Device>⟧ world.old) who }
    ensures ready { Readies (world_with [] world.old) (world_with [] world.new) who }
    ensures back { restored (world_seen ⟦<dyn Device as Device>⟧ world.new) spare.new.bytes result
        ≡ world_seen ⟦<dyn Device as Device>⟧ world.old }
    ensures spare { spare.new ≡ world.old.out }
    ensures bytes { world.new.out.bytes ≡ [] }
    ensures room { world.new.out.room ≡ spare.old.room + length spare.old.bytes }
{
    let kept = kept_of(&world.kern, who);
    drop_others(&mut world.kern, who);
    spare.clear();
    swap(&mut world.out, spare);
    kept
}

// Gives a task its registers back.
#[tactic(auto, using(crate::proofs::Readied::not_written))]
fn put_back(kern: &mut Kern, who: Ident, regs: Regs)
    ensures { kern.new ≡ put_back_lem kern.old (Some (who, regs)) }
{
    if kern.task(who).is_some() {
        kern.set_regs(who, regs);
    }
}

// Gives this task, if there is one, the registers that it had.
fn put_kept(kern: &mut Kern, kept: Option<(Ident, Regs)>)
    ensures { kern.new ≡ put_back_lem kern.old kept }
{
    if let Some((who, regs)) = kept {
        put_back(kern, who, regs);
    }
}

/// The step ran out of memory: undoes all that its beginning did.
pub fn give_back(world: &mut World, spare: &mut OutBuf, kept: Option<(Ident, Regs)>)
    ensures world { world_seen ⟦<dyn Device as Device>⟧ world.new
        ≡ restored (world_seen ⟦<dyn Device as Device>⟧ world.old) spare.old.bytes kept }
    ensures out { world.new.out ≡ spare.old }
    ensures spare { spare.new ≡ world.old.out }
{
    put_kept(&mut world.kern, kept);
    swap(&mut world.out, spare);
}
