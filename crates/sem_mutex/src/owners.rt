//! What owning a mutex means for a task.

ghost use Rattle.std.specs.Prelude.{◌≡◌, ◌<◌, ◌+◌, ◌^◌, ◌-◌, Some};
ghost use Rattle.wind_base.specs.declared.profile.Profile.TheVariants.{One};
ghost use Rattle.wind_core.specs.State.{Lives, task_of};
ghost use Rattle.task_safety.specs.Safety.{safe_of};
ghost use Rattle.sem_mutex.specs.Calls.{held_of, holding, guarded, eased, letting_go, owned, freed, restored, followed, pri_after as pri_after_lem};

use id_table::Ident;
use inheritance::{Mutex, more_urgent};
use task_safety::{lessen, safe};
use wind_base::{Pri, Profile};
use wind_core::Kern;

// Makes the task the owner, with one take.
pub(crate) fn own(m: &mut Mutex, who: Ident)
    ensures { m.new ≡ owned who m.old }
{
    m.owner = Some(who);
    m.depth = 1;
}

// Frees the mutex.
pub(crate) fn free(m: &mut Mutex)
    ensures { m.new ≡ freed m.old }
{
    m.owner = None;
    m.depth = 0;
}

// Counts one more take by the owner.
pub(crate) fn add_depth(m: &mut Mutex)
    requires { m.old.depth + 1 < 2 ^ 64 }
    ensures { m.new ≡ record m.old { depth = m.old.depth + 1 } }
{
    m.depth += 1;
}

// Counts one give by the owner.
pub(crate) fn take_depth(m: &mut Mutex)
    ensures { m.new ≡ record m.old { depth = m.old.depth - 1 } }
{
    m.depth = m.depth.saturating_sub(1);
}

// The number of inversion-safe mutexes that the task owns.
fn held(k: &Kern, who: Ident) -> u64
    ensures { result ≡ held_of (task_of k.now.tasks who) }
{
    match k.task(who) {
        Some(task) => task.held,
        None => 0,
    }
}

// Counts one more inversion-safe mutex of the task, if the mutex is one.
fn hold(k: &mut Kern, who: Ident, m: &Mutex)
    requires live { Lives k.old who }
    requires held { held_of (task_of k.old.tasks who) + 1 < 2 ^ 64 }
    ensures { k.new ≡ holding k.old who m.now }
{
    if !m.inversion_safe {
        return;
    }
    let n = held(k, who);
    k.set_held(who, n + 1);
}

// Begins one more safe section of the task, if the mutex is delete-safe.
pub(crate) fn guard(k: &mut Kern, who: Ident, m: &Mutex)
    requires live { Lives k.old who }
    requires safe { safe_of (task_of k.old.tasks who) + 1 < 2 ^ 64 }
    ensures { k.new ≡ guarded k.old who m.now }
{
    if m.delete_safe {
        safe(k, who);
    }
}

// Both.
pub(crate) fn adopt(k: &mut Kern, who: Ident, m: &Mutex)
    requires live { Lives k.old who }
    requires held { held_of (task_of k.old.tasks who) + 1 < 2 ^ 64 }
    requires safe { safe_of (task_of k.old.tasks who) + 1 < 2 ^ 64 }
    ensures { k.new ≡ guarded (holding k.old who m.now) who m.now }
{
    hold(k, who, m);
    guard(k, who, m);
}

// Ends `n` safe sections of the task, if the mutex is delete-safe.
pub(crate) fn ease(k: &mut Kern, who: Ident, m: &Mutex, n: u64)
    requires live { Lives k.old who }
    requires since { k.old.next_since < 2 ^ 63 }
    ensures { k.new ≡ eased k.old who m.now n }
{
    if m.delete_safe {
        lessen(k, who, n);
    }
}

// Gives the task its normal priority back, if it owns no inversion-safe mutex.
fn restore_normal(k: &mut Kern, who: Ident)
    requires since { k.old.next_since < 2 ^ 63 }
    ensures { k.new ≡ restored One k.old who (task_of k.old.tasks who) }
{
    let Some(task) = k.task(who) else {
        return;
    };
    let (held, normal) = (task.held, task.normal);
    if held == 0 {
        k.change_pri(who, normal);
    }
}

// Does so under profile 1.
fn restore(k: &mut Kern, who: Ident, profile: Profile)
    requires since { k.old.next_since < 2 ^ 63 }
    ensures { k.new ≡ restored profile k.old who (task_of k.old.tasks who) }
{
    match profile {
        Profile::One => restore_normal(k, who),
        Profile::Two => {}
    }
}

// Counts one inversion-safe mutex of the task less, if the mutex is one.
pub(crate) fn let_go(k: &mut Kern, who: Ident, m: &Mutex, profile: Profile)
    requires live { Lives k.old who }
    requires since { k.old.next_since < 2 ^ 63 }
    ensures { k.new ≡ letting_go profile k.old who m.now }
{
    if m.inversion_safe {
        let n = held(k, who);
        k.set_held(who, n.saturating_sub(1));
        restore(k, who, profile);
    }
}

// Under profile 1 the task gets this priority.
pub(crate) fn follow(k: &mut Kern, who: Ident, pri: Pri, profile: Profile)
    requires live { Lives k.old who }
    requires since { k.old.next_since + 1 < 2 ^ 64 }
    ensures { k.new ≡ followed profile k.old who pri }
{
    match profile {
        Profile::One => k.change_pri(who, pri),
        Profile::Two => {}
    }
}

// The priority that follows under profile 1 when a task's normal priority is set to `pri`.
pub(crate) fn pri_after(k: &Kern, who: Ident, pri: Pri) -> Pri
    ensures { result ≡ pri_after_lem pri (task_of k.now.tasks who) }
{
    match k.task(who) {
        Some(task) if task.held != 0 => more_urgent(task.pri, pri),
        _ => pri,
    }
}
