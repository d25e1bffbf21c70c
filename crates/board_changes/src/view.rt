//! What a trace sees of a task and of a watchdog.

ghost use Rattle.std.specs.Prelude.{◌≡◌};
ghost use Rattle.board_changes.specs.Views.{task_id, watchdog_id, view_of_task, view_of_watchdog};

use crate::awaited::Awaited;
use crate::walk::Identified;
use id_table::Ident;
use isr_watch::{Timer, Watchdog};
use task_block::Task;
use wind_base::{Pri, ShortName};

/// What a trace sees of a task.
#[derive(Drop)]
pub struct TaskView {
    /// The task's id.
    pub id: Ident,
    /// Its name.
    pub name: ShortName,
    /// Its current priority.
    pub pri: Pri,
    /// Its normal priority, without inheritance.
    pub normal: Pri,
    /// Its order number: of two ready tasks with the same priority, the one with the lower number is
    /// before.
    pub since: u64,
    /// What it waits for, if it waits.
    pub wait: Option<Awaited>,
    /// The tick at which its delay or the timeout of its wait ends, if there is one.
    pub wake: Option<u64>,
    /// Whether it is suspended.
    pub suspended: bool,
    /// r3: after a call, its result.
    pub answer: u32,
    /// Its last error number.
    pub errno: u32,
}

impl Identified for TaskView {
    ghost number = { task_id };

    fn ident(&self) -> Ident {
        self.id
    }
}

/// Views before a step, and after it.
#[derive(Drop)]
pub(crate) struct Views<'a, V> {
    /// Those before it.
    pub(crate) before: &'a [V],
    /// Those after it.
    pub(crate) after: &'a [V],
}

/// What a trace sees of a watchdog.
#[derive(Clone, Copy)]
pub struct WatchdogView {
    /// The watchdog's id.
    pub id: Ident,
    /// When it is due, if it is running.
    pub timer: Option<Timer>,
}

impl Identified for WatchdogView {
    ghost number = { watchdog_id };

    fn ident(&self) -> Ident {
        self.id
    }
}

/// The view of a task, given what it waits for.
pub fn task_view(task: &Task, wait: Option<Awaited>) -> TaskView
    ensures { result ≡ view_of_task wait task.now }
{
    TaskView {
        id: task.id,
        name: task.name.copied(),
        pri: task.pri,
        normal: task.normal,
        since: task.since,
        wait,
        wake: task.wake,
        suspended: task.suspended,
        answer: task.regs.gpr[3],
        errno: task.errno,
    }
}

/// The view of a watchdog.
pub fn watchdog_view(watchdog: &Watchdog) -> WatchdogView
    ensures { result ≡ view_of_watchdog watchdog.now }
{
    WatchdogView {
        id: watchdog.id,
        timer: watchdog.timer,
    }
}
