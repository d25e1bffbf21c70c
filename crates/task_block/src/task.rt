//! A task's record.

ghost use Rattle.std.specs.Prelude.{◌≡◌};
ghost use Rattle.task_block.specs.Standing.{is_ready, status_word};

use crate::status::{Status10, word};
use id_table::{Ident, Place};
use wind_base::{Pri, Regs, ShortName};

/// The kernel's record of a task.
#[derive(Drop)]
pub struct Task {
    /// The id by which calls name the task.
    pub id: Ident,
    /// Its name.
    pub name: ShortName,
    /// The address of its entry function.
    pub entry: u32,
    /// The address of its stack.
    pub stack: u32,
    /// The size of its stack in bytes.
    pub stack_size: u32,
    /// Its current priority, by which it is scheduled.
    pub pri: Pri,
    /// Its normal priority, without inheritance.
    pub normal: Pri,
    /// Its order number: of two tasks with the same priority, the one with the lower number is
    /// before.
    pub since: u64,
    /// The place at which it waits, if it waits.
    pub wait: Option<Place>,
    /// Whether it waits in order of arrival. If not, it waits by priority.
    pub fifo: bool,
    /// The tick at which its delay or the timeout of its wait ends, if there is one.
    pub wake: Option<u64>,
    /// Whether it is suspended.
    pub suspended: bool,
    /// How many calls of `taskLock` it has yet to undo with `taskUnlock`.
    pub locks: u64,
    /// The number of safe sections that it is in. In one, other tasks can't delete it.
    pub safe: u64,
    /// How many inversion-safe mutexes it owns.
    pub held: u64,
    /// Whether it has locked out interrupts.
    pub int_locked: bool,
    /// How many ticks of its time slice it has used.
    pub turns: u32,
    /// Its registers.
    pub regs: Regs,
    /// Its last error number.
    pub errno: u32,
    /// Whether its next call is a repetition of a call that pended.
    pub again: bool,
}

/// What a new task begins with.
#[derive(Drop)]
pub struct NewTask {
    /// Its name.
    pub name: ShortName,
    /// The address of its entry function.
    pub entry: u32,
    /// The address of its stack.
    pub stack: u32,
    /// The size of its stack in bytes.
    pub stack_size: u32,
    /// Its priority.
    pub pri: Pri,
    /// Its registers.
    pub regs: Regs,
}

impl Task {
    /// Whether the task is ready: it waits for nothing, isn't delayed and isn't suspended.
    pub fn ready(&self) -> bool
        ensures { result ≡ is_ready self.now }
    {
        self.wait.is_none() && self.wake.is_none() && !self.suspended
    }

    /// The word that describes its state in the shell's task table.
    pub fn status(&self) -> Status10
        ensures { result ≡ status_word self.now }
    {
        word(self.wait.is_some(), self.wake.is_some(), self.suspended)
    }
}
