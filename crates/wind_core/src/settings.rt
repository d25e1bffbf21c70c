//! Settings of one task, which leave it where it is in every queue.

ghost use Rattle.std.specs.Prelude.{◌≡◌};
ghost use Rattle.task_block.specs.declared.task.Task.{Task as Task_lem};
ghost use Rattle.wind_core.specs.State.{Lives};
ghost use Rattle.wind_core.specs.Notes.{marks};
ghost use Rattle.wind_core.specs.Moves.{change_task, past_gate, with_answer, with_refusal, with_setting, leave_gate, answer, refuse, unreserve, set_regs, set_locks, set_normal, set_safe, set_held, set_errno, set_int_locked, set_again};

use crate::kern::Kern;
use crate::notes::{holds_none_too, normal_too};
use id_table::Ident;
use task_block::Task;
use wind_base::words::ERROR;
use wind_base::{Errno, Pri, Regs};

/// A field of one task that is set, and leaves the task where it is in every queue.
pub enum Setting {
    /// The number of the task's scheduler locks.
    Locks(u64),
    /// The task's normal priority.
    Normal(Pri),
    /// The number of safe sections that the task is in.
    Safe(u64),
    /// The number of inversion-safe mutexes that the task owns.
    Held(u64),
    /// The task's error number.
    Errno(u32),
    /// Whether the task locks out interrupts.
    IntLocked(bool),
    /// Whether the task's next call is a repetition of a call that pended.
    Again(bool),
    /// The result of the task's call, in r3.
    Answer(u32),
    /// The task's call is refused.
    Refusal(Errno),
    /// The task returns from its call.
    PastGate,
    /// The task loses its reservation.
    Unreserved,
}

// Returns the task from its call.
fn pass_gate(task: &mut Task)
    ensures { task.new ≡ past_gate task.old }
{
    let link = task.regs.lr;
    task.regs.pc = link;
}

// Sets the result of the task's call, in r3.
fn put_answer(task: &mut Task, value: u32)
    ensures { task.new ≡ with_answer value task.old }
{
    task.regs.gpr[3] = value;
}

// Refuses the task's call.
fn put_refusal(task: &mut Task, errno: Errno)
    ensures { task.new ≡ with_refusal errno task.old }
{
    put_answer(task, ERROR);
    task.errno = errno.number();
}

// Sets a field of the task.
#[inline(always)]
fn put_setting(task: &mut Task, setting: Setting)
    ensures { task.new ≡ with_setting setting task.old }
{
    match setting {
        Setting::Locks(n) => task.locks = n,
        Setting::Normal(pri) => task.normal = pri,
        Setting::Safe(n) => task.safe = n,
        Setting::Held(n) => task.held = n,
        Setting::Errno(n) => task.errno = n,
        Setting::IntLocked(on) => task.int_locked = on,
        Setting::Again(on) => task.again = on,
        Setting::Answer(value) => put_answer(task, value),
        Setting::Refusal(errno) => put_refusal(task, errno),
        Setting::PastGate => pass_gate(task),
        Setting::Unreserved => task.regs.reserve = None,
    }
}

impl Kern {
    // Sets a field of the task, which leaves it where it is in every queue, and what is noted of all
    // tasks as it is.
    #[inline(always)]
    fn put(&mut self, who: Ident, setting: Setting)
        requires live { Lives self.old who }
        requires marks { (t : Task_lem) → marks (with_setting setting t) ≡ marks t }
        ensures { self.new ≡ change_task self.old who (with_setting setting) }
    {
        put_setting(self.tasks.object_mut(who), setting);
    }

    // The same for any field. What is noted of all tasks is tested at this one.
    fn put_noted(&mut self, who: Ident, setting: Setting)
        requires { Lives self.old who }
        ensures { self.new ≡ change_task self.old who (with_setting setting) }
    {
        let task = self.tasks.object_mut(who);
        put_setting(task, setting);
        self.all_normal = normal_too(self.all_normal, task);
        self.none_holds = holds_none_too(self.none_holds, task);
    }

    /// Returns the task from its call: the program counter becomes the link register.
    pub fn leave_gate(&mut self, who: Ident)
        requires { Lives self.old who }
        ensures { self.new ≡ leave_gate self.old who }
    {
        self.put(who, Setting::PastGate);
    }

    /// Sets the result of the task's call, in r3.
    pub fn answer(&mut self, who: Ident, value: u32)
        requires { Lives self.old who }
        ensures { self.new ≡ answer self.old who value }
    {
        self.put(who, Setting::Answer(value));
    }

    /// Refuses the task's call: its result is ERROR, and the task's error number is set.
    pub fn refuse(&mut self, who: Ident, errno: Errno)
        requires { Lives self.old who }
        ensures { self.new ≡ refuse self.old who errno }
    {
        self.put(who, Setting::Refusal(errno));
    }

    /// Drops the task's reservation.
    pub fn unreserve(&mut self, who: Ident)
        requires { Lives self.old who }
        ensures { self.new ≡ unreserve self.old who }
    {
        self.put(who, Setting::Unreserved);
    }

    /// Sets the task's registers.
    pub fn set_regs(&mut self, who: Ident, regs: Regs)
        requires { Lives self.old who }
        ensures { self.new ≡ set_regs self.old who regs }
    {
        self.tasks.object_mut(who).regs = regs;
    }

    /// Sets the number of the task's scheduler locks.
    pub fn set_locks(&mut self, who: Ident, n: u64)
        requires { Lives self.old who }
        ensures { self.new ≡ set_locks self.old who n }
    {
        self.put(who, Setting::Locks(n));
    }

    /// Sets the task's normal priority, without inheritance.
    pub fn set_normal(&mut self, who: Ident, pri: Pri)
        requires { Lives self.old who }
        ensures { self.new ≡ set_normal self.old who pri }
    {
        self.put_noted(who, Setting::Normal(pri));
    }

    /// Sets the number of safe sections that the task is in.
    pub fn set_safe(&mut self, who: Ident, n: u64)
        requires { Lives self.old who }
        ensures { self.new ≡ set_safe self.old who n }
    {
        self.put(who, Setting::Safe(n));
    }

    /// Sets the number of inversion-safe mutexes that the task owns.
    pub fn set_held(&mut self, who: Ident, n: u64)
        requires { Lives self.old who }
        ensures { self.new ≡ set_held self.old who n }
    {
        self.put_noted(who, Setting::Held(n));
    }

    /// Sets the task's last error number.
    pub fn set_errno(&mut self, who: Ident, n: u32)
        requires { Lives self.old who }
        ensures { self.new ≡ set_errno self.old who n }
    {
        self.put(who, Setting::Errno(n));
    }

    /// Sets whether the task has locked out interrupts.
    pub fn set_int_locked(&mut self, who: Ident, on: bool)
        requires { Lives self.old who }
        ensures { self.new ≡ set_int_locked self.old who on }
    {
        self.put(who, Setting::IntLocked(on));
    }

    /// Sets whether the task's next call is a repetition of a call that pended.
    pub fn set_again(&mut self, who: Ident, on: bool)
        requires { Lives self.old who }
        ensures { self.new ≡ set_again self.old who on }
    {
        self.put(who, Setting::Again(on));
    }
}
