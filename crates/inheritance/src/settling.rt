//! Under profile 2 a task's priority follows from normal priorities alone.

ghost use Rattle.std.specs.Prelude.{◌≡◌, ◌<◌, ◌≤◌, ◌+◌, ◌^◌, ℕ, true, cond, nat_lt, length, slice_index_or};
ghost use Rattle.wind_base.specs.declared.profile.Profile.TheVariants.{Two};
ghost use Rattle.task_block.specs.declared.task.Task.{Task as Task_lem};
ghost use Rattle.inheritance.specs.Reach.{boss as boss_lem, path, lifted, repried, raised_kern};
ghost use Rattle.inheritance.specs.Laws.{NobodyWaits, OwnersHold};
ghost use Rattle.inheritance.specs.Goals.{AreGoals, AreLent, owner_ids};

use crate::chain::boss;
use crate::heirs::more_urgent;
use crate::mutex::Mutex;
use crate::place::place_of;
use id_table::{Ident, Table};
use task_block::Task;
use wind_base::Pri;
use wind_base::limits::TASKS;
use wind_core::Kern;

// One more, if the task owns an inversion-safe mutex.
fn with_owner(count: u32, task: &Task) -> u32
    requires { count + 1 < 2 ^ 32 }
    ensures { result ≡ count + cond (nat_lt 0 task.now.held) 1 0 }
{
    if task.held > 0 { count + 1 } else { count }
}

// The number of tasks that own inversion-safe mutexes.
fn owners(k: &Kern) -> u32
    ensures { result ≡ length (owner_ids k.now.tasks) }
{
    k.facts();
    let mut count = 0;
    for place in 0..k.live() {
        count = with_owner(count, k.task_at(place));
    }
    count
}

// Writes each task's normal priority at its place.
fn put_normals(k: &Kern, goals: &mut [Pri])
    requires { length k.now.tasks ≤ length goals.old }
    ensures { (i : ℕ) (d : Task_lem) (e : ℕ) → i < length k.now.tasks
        → slice_index_or goals.new i e ≡ (slice_index_or k.now.tasks i d).normal }
{
    for place in 0..k.live() {
        goals[place as usize] = k.task_at(place).normal;
    }
}

// Passes a priority on to the owners on the task's path, through at most `steps` of them.
fn lend(k: &Kern, mutexes: &Table<Mutex>, goals: &mut [Pri], who: Ident, pri: Pri, steps: u32)
    requires { length k.now.tasks ≤ length goals.old }
    ensures { AreLent k.now.tasks (path (boss_lem k.now.tasks mutexes.now.rows) steps who) pri goals.old goals.new }
{
    k.facts();
    let mut at = who;
    for step in 0..steps {
        let Some(owner) = boss(k, mutexes, at) else {
            return;
        };
        let place = place_of(k, owner) as usize;
        goals[place] = more_urgent(pri, goals[place]);
        at = owner;
    }
}

// Writes at each task's place the most urgent normal priority of itself and of the tasks that wait
// for it. Each waiting task's path is followed once, through at most as many owners as there are.
fn put_goals(k: &Kern, mutexes: &Table<Mutex>, goals: &mut [Pri])
    requires owners { OwnersHold mutexes.now.rows k.now.tasks }
    requires room { length k.now.tasks ≤ length goals.old }
    ensures { AreGoals k.now.tasks goals.new (lifted Two k.now mutexes.now.rows) }
{
    k.facts();
    let steps = owners(k);
    put_normals(k, goals);
    for place in 0..k.live() {
        let task = k.task_at(place);
        lend(k, mutexes, goals, task.id, task.normal, steps);
    }
}

// Gives each task the priority at its place, in order of id.
fn take_goals(k: &mut Kern, goals: &[Pri])
    requires room { length k.old.tasks ≤ length goals.now }
    requires since { k.old.next_since < 2 ^ 63 }
    ensures { (goal : ℕ → ℕ) → AreGoals k.old.tasks goals.now goal → k.new ≡ repried k.old goal k.old.tasks }
{
    k.facts();
    for place in 0..k.live() {
        let who = k.task_at(place).id;
        k.change_pri(who, goals[place as usize]);
    }
}

// Gives each task the most urgent normal priority of itself and of the tasks that wait for it.
fn settle_all(k: &mut Kern, mutexes: &Table<Mutex>)
    requires owners { OwnersHold mutexes.now.rows k.old.tasks }
    requires since { k.old.next_since < 2 ^ 63 }
    ensures { k.new ≡ raised_kern Two k.old mutexes.now.rows }
{
    k.facts();
    if k.live() == 0 {
        return;
    }
    let mut goals = [k.task_at(0).normal; TASKS as usize];
    put_goals(k, mutexes, &mut goals);
    take_goals(k, &goals);
}

// `true` guarantees that no task waits for an owner. `false` guarantees nothing.
fn surely_nobody_waits(k: &Kern) -> bool
    ensures { result ≡ true → NobodyWaits k.now.tasks }
{
    if k.surely_none_holds() {
        return true;
    }
    k.waits().len() == 0
}

// The same. Tasks wait for no owner if there is none, which is then noted.
fn nobody_waits(k: &mut Kern) -> bool
    ensures kern { k.new ≡ k.old }
    ensures nobody { result ≡ true → NobodyWaits k.old.tasks }
{
    if surely_nobody_waits(k) {
        return true;
    }
    if owners(k) > 0 {
        return false;
    }
    k.note_none_holds();
    true
}

// Gives each task its normal priority. Nobody may wait for an owner.
fn settle_alone(k: &mut Kern, mutexes: &Table<Mutex>)
    requires owners { OwnersHold mutexes.now.rows k.old.tasks }
    requires nobody { NobodyWaits k.old.tasks }
    requires since { k.old.next_since < 2 ^ 63 }
    ensures { k.new ≡ raised_kern Two k.old mutexes.now.rows }
{
    k.facts();
    if k.surely_all_normal() {
        return;
    }
    settle_all(k, mutexes);
    k.note_all_normal();
}

/// Gives each task the most urgent normal priority of itself and of the tasks that wait for it,
/// along owners. A ready task whose priority changes goes after its new equals, in order of id.
pub fn settle(k: &mut Kern, mutexes: &Table<Mutex>)
    requires owners { OwnersHold mutexes.now.rows k.old.tasks }
    requires since { k.old.next_since < 2 ^ 63 }
    ensures { k.new ≡ raised_kern Two k.old mutexes.now.rows }
{
    if nobody_waits(k) {
        settle_alone(k, mutexes);
    } else {
        settle_all(k, mutexes);
    }
}
