//! Who makes a kernel call, and the words that the caller hands in.

ghost use Rattle.std.specs.Prelude.{◌≡◌, ◌<◌, IfSome, option_copied};
ghost use Rattle.wind_core.specs.State.{Lives};
ghost use Rattle.kernel_world.specs.Actors.{is_shell as is_shell_lem, found_regs, caller_regs as caller_regs_lem, stack_word as stack_word_lem, Acts, target as target_lem};

use crate::starting::no_regs;
use board_mem::Ram;
use id_table::Ident;
use isr_watch::Watch;
use wind_base::Regs;
use wind_core::Kern;

/// Who makes a kernel call.
#[derive(Clone, Copy, Debug, PartialEq, Eq)]
pub enum Actor {
    /// The task with this id.
    Task(Ident),
    /// The active interrupt routine.
    Interrupt,
}

/// Whether the caller is the shell's task.
pub fn is_shell(who: &Actor) -> bool
    ensures { result ≡ is_shell_lem who.now }
{
    match who {
        Actor::Task(id) => *id == Ident::shell(),
        Actor::Interrupt => false,
    }
}

// The caller's registers. `None` if there is no such caller.
pub(crate) fn found_regs<'a>(kern: &'a Kern, watch: &'a Watch, who: &Actor) -> Option<&'a Regs>
    ensures { option_copied result ≡ found_regs kern.now watch.now.level who.now }
{
    match who {
        Actor::Task(id) => match kern.task(*id) {
            Some(task) => Some(&task.regs),
            None => None,
        },
        Actor::Interrupt => watch.regs(),
    }
}

/// The caller's registers. If there is no such caller, no register has a value.
pub fn caller_regs(kern: &Kern, watch: &Watch, who: &Actor) -> Regs
    ensures { result ≡ caller_regs_lem kern.now watch.now.level who.now }
{
    match found_regs(kern, watch, who) {
        Some(regs) => *regs,
        None => no_regs(),
    }
}

/// Argument word `number` (below 8) after those in registers; `pointer` is r1. `None` if a byte of
/// it is outside RAM.
pub fn stack_word(ram: &Ram, pointer: u32, number: u32) -> Option<u32>
    requires { number < 8 }
    ensures { result ≡ stack_word_lem ram.now.bytes pointer number }
{
    let at = u64::from(pointer) + u64::from(8 + 4 * number);
    if at >= u64::from(ram.size()) {
        return None;
    }
    ram.read32(at as u32)
}

/// The task that an id in a call means: 0 is the caller, if the caller is a task. `None` if no such
/// task lives.
#[tactic(auto, using(crate::proofs::Living::live_found))]
pub fn target(kern: &Kern, who: Actor, id: u32) -> Option<Ident>
    requires { Acts kern.now who }
    ensures task { result ≡ target_lem kern.now who id }
    ensures live { IfSome result (λ t. Lives kern.now t) }
{
    match who {
        Actor::Task(caller) if id == 0 => Some(caller),
        _ => kern.find(id),
    }
}
