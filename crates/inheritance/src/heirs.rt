//! Priority inheritance: owners inherit the priorities of the tasks that wait for them.

ghost use Rattle.std.specs.Prelude.{◌≡◌, ◌<◌, ◌^◌, min};
ghost use Rattle.wind_base.specs.declared.profile.Profile.TheVariants.{One};
ghost use Rattle.wind_core.specs.State.{Lives};
ghost use Rattle.inheritance.specs.Reach.{pri_of, heir as heir_lem, raised_kern};
ghost use Rattle.inheritance.specs.Laws.{OwnersUrgentBut};

use crate::chain::boss;
use crate::mutex::Mutex;
use id_table::{Ident, Table};
use wind_base::Pri;
use wind_base::limits::TASKS;
use wind_core::Kern;

/// The more urgent of two priorities.
pub fn more_urgent(a: Pri, b: Pri) -> Pri
    ensures { result ≡ min a b }
{
    if a.get() < b.get() { a } else { b }
}

// The priority of a live task.
fn priority(k: &Kern, who: Ident) -> Pri
    requires { Lives k.now who }
    ensures { result ≡ pri_of k.now.tasks who }
{
    match k.task(who) {
        Some(task) => task.pri,
        None => unreachable!(),
    }
}

// The live owner that the task waits for, if the owner is less urgent than this priority.
fn heir(k: &Kern, mutexes: &Table<Mutex>, who: Ident, pri: Pri) -> Option<Ident>
    ensures { result ≡ heir_lem k.now.tasks mutexes.now.rows pri who }
{
    let owner = boss(k, mutexes, who)?;
    let task = k.task(owner)?;
    if pri.get() < task.pri.get() {
        Some(owner)
    } else {
        None
    }
}

/// Passes the task's priority on to the owner that it waits for, to the owner that this one waits
/// for, and so on. This ends at the first owner that is at least as urgent. A ready task whose
/// priority changes goes after its new equals. Every other waiter must have passed its priority on
/// before. Afterwards each task has the most urgent priority of itself and of the tasks that wait
/// for it, as profile 1 requires.
pub fn inherit(k: &mut Kern, mutexes: &Table<Mutex>, who: Ident)
    requires live { Lives k.old who }
    requires urgent { OwnersUrgentBut who mutexes.now.rows k.old.tasks }
    requires since { k.old.next_since < 2 ^ 63 }
    ensures { k.new ≡ raised_kern One k.old mutexes.now.rows }
{
    k.facts();
    let pri = priority(k, who);
    let mut at = who;
    // A walk has at most as many steps as there can be tasks: an owner that has inherited already
    // ends it.
    for step in 0..TASKS {
        let Some(owner) = heir(k, mutexes, at, pri) else {
            return;
        };
        k.change_pri(owner, pri);
        at = owner;
    }
}
