//! Answers the caller of a kernel call, and keeps its error number.

ghost use Rattle.std.specs.Prelude.{◌≡◌, ◌≢◌};
ghost use Rattle.kernel_world.specs.Actors.{Acts};
ghost use Rattle.kernel_world.specs.Replies.{errno_of as errno_of_lem, with_errno, in_r3, level_by, with_answer, replied};
ghost use Rattle.kernel_world.specs.declared.reply.Reply.TheVariants as replies;
ghost use Rattle.kernel_world.specs.Seen.{world_seen};

use crate::actor::Actor;
use crate::gates::refusal_word;
use crate::reply::Reply;
use crate::world::World;
use isr_watch::Watch;
use wind_base::Gate;
use wind_outside::Device;

/// The caller's last error number, as errnoGet answers it.
pub fn errno_of(w: &World, who: Actor) -> u32
    ensures { result ≡ errno_of_lem (world_seen ⟦<dyn Device as Device>⟧ w.now) who }
{
    match who {
        Actor::Task(id) => match w.kern.task(id) {
            Some(task) => task.errno,
            None => 0,
        },
        Actor::Interrupt => w.int_errno,
    }
}

/// Sets the caller's last error number, as errnoSet and a refusal do.
pub fn set_errno(w: &mut World, who: &Actor, number: u32)
    requires { Acts w.old.kern who.now }
    ensures world { world_seen ⟦<dyn Device as Device>⟧ w.new
        ≡ with_errno (world_seen ⟦<dyn Device as Device>⟧ w.old) who.now number }
    ensures out { w.new.out ≡ w.old.out }
{
    match who {
        Actor::Task(id) => w.kern.set_errno(*id, number),
        Actor::Interrupt => w.int_errno = number,
    }
}

// Puts the answer in r3 of the active routine.
fn put_in_r3(watch: &mut Watch, value: u32)
    ensures { watch.new ≡ level_by (in_r3 value) watch.old }
{
    if let Some(regs) = watch.regs_mut() {
        regs.gpr[3] = value;
    }
}

// Puts the answer in the caller's r3.
fn give_answer(w: &mut World, who: Actor, value: u32)
    requires { Acts w.old.kern who }
    ensures world { world_seen ⟦<dyn Device as Device>⟧ w.new
        ≡ with_answer (world_seen ⟦<dyn Device as Device>⟧ w.old) who value }
    ensures out { w.new.out ≡ w.old.out }
{
    match who {
        Actor::Task(id) => w.kern.answer(id, value),
        Actor::Interrupt => put_in_r3(&mut w.watch, value),
    }
}

/// Answers the caller. A caller that pends is answered later; one that has ended isn't answered.
pub fn reply_to(w: &mut World, gate: Gate, who: &Actor, reply: &Reply)
    requires { reply.now ≢ replies.Gone → Acts w.old.kern who.now }
    ensures world { world_seen ⟦<dyn Device as Device>⟧ w.new
        ≡ replied gate (world_seen ⟦<dyn Device as Device>⟧ w.old) who.now reply.now }
    ensures out { w.new.out ≡ w.old.out }
{
    match reply {
        Reply::Answer(value) => give_answer(w, *who, *value),
        Reply::Refusal(errno) => {
            set_errno(w, who, errno.number());
            give_answer(w, *who, refusal_word(gate));
        }
        Reply::Later | Reply::Gone => {}
    }
}
