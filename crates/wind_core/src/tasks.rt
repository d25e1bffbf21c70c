//! Changes of one task.

ghost use Rattle.std.specs.Prelude.{◌≡◌, ◌<◌, ◌+◌, ◌^◌, nat_le, if◌then◌else◌};
ghost use Rattle.task_block.specs.Standing.{is_ready};
ghost use Rattle.wind_core.specs.Moves.{new_task, renewed, pended, delayed, wake_at, is_endless as is_endless_lem, released, answered, settled, suspended, resumed, unmarked, with_pri};
ghost use Rattle.wind_core.specs.Tick.{slice_counted};

use id_table::sides::{CONSOLE, DELETION};
use id_table::{Ident, Place};
use task_block::{NewTask, Task};
use wind_base::words::WAIT_FOREVER;
use wind_base::{Errno, Pri};

// The record of a new task.
pub(crate) fn made(new: NewTask, id: Ident, since: u64) -> Task
    ensures { result ≡ new_task id since new }
{
    let NewTask {
        name,
        entry,
        stack,
        stack_size,
        pri,
        regs,
    } = new;
    Task {
        id,
        name,
        entry,
        stack,
        stack_size,
        pri,
        normal: pri,
        since,
        wait: None,
        fifo: false,
        wake: None,
        suspended: false,
        locks: 0,
        safe: 0,
        held: 0,
        int_locked: false,
        turns: 0,
        regs,
        errno: 0,
        again: false,
    }
}

// Whether a wait at this side of an object has no timeout, and is in order of priority.
fn is_endless(side: u8) -> bool
    ensures { result ≡ is_endless_lem side }
{
    side == DELETION || side == CONSOLE
}

// The tick at which a wait at this side times out; `timeout` is in ticks. None if it doesn't time
// out.
fn wake_tick(side: u8, tick: u64, timeout: u32) -> Option<u64>
    requires { tick < 2 ^ 63 }
    ensures { result ≡ wake_at side tick timeout }
{
    if is_endless(side) || timeout == WAIT_FOREVER {
        None
    } else {
        Some(tick + u64::from(timeout))
    }
}

// Begins the task's wait, with a timeout in ticks.
pub(crate) fn begin_wait(task: &mut Task, place: Place, fifo: bool, tick: u64, timeout: u32)
    requires { tick < 2 ^ 63 }
    ensures { task.new ≡ pended place fifo (wake_at place.side tick timeout) task.old }
{
    let side = place.side;
    task.wait = Some(place);
    task.fifo = fifo && !is_endless(side);
    task.wake = wake_tick(side, tick, timeout);
    task.turns = 0;
}

// Begins the task's delay of `ticks` ticks. With 0, nothing changes.
pub(crate) fn begin_delay(task: &mut Task, tick: u64, ticks: u32)
    requires { tick < 2 ^ 63 }
    ensures { task.new ≡ delayed tick ticks task.old }
{
    if ticks != 0 {
        task.wake = Some(tick + u64::from(ticks));
        task.turns = 0;
    }
}

// Ends the task's wait or delay.
pub(crate) fn end(task: &mut Task)
    ensures { task.new ≡ released task.old }
{
    task.wait = None;
    task.wake = None;
}

// Ends the task's wait or delay, with a result for its call.
pub(crate) fn answer_wait(task: &mut Task, answer: u32, errno: Option<Errno>)
    ensures { task.new ≡ answered answer errno task.old }
{
    end(task);
    task.regs.gpr[3] = answer;
    if let Some(e) = errno {
        task.errno = e.number();
    }
}

// Gives the task a new order number if it is ready.
pub(crate) fn settle(task: &mut Task, next_since: &mut u64)
    requires { next_since.old + 1 < 2 ^ 64 }
    ensures task { task.new ≡ settled next_since.old task.old }
    ensures next { next_since.new ≡ next_since.old + (if is_ready task.old then 1 else 0) }
{
    if task.ready() {
        task.since = *next_since;
        *next_since += 1;
    }
}

// Suspends the task and ends its time slice.
pub(crate) fn suspend_task(task: &mut Task)
    ensures { task.new ≡ suspended task.old }
{
    task.suspended = true;
    task.turns = 0;
}

// Ends the task's suspension.
pub(crate) fn take_suspension(task: &mut Task)
    ensures { task.new ≡ resumed task.old }
{
    task.suspended = false;
}

// Clears the task's suspension, scheduler locks, interrupt lock and mark of a repeated call.
pub(crate) fn take_marks(task: &mut Task)
    ensures { task.new ≡ unmarked task.old }
{
    task.suspended = false;
    task.locks = 0;
    task.int_locked = false;
    task.again = false;
}

// Sets the task's priority.
pub(crate) fn set_pri(task: &mut Task, pri: Pri)
    ensures { task.new ≡ with_pri pri task.old }
{
    task.pri = pri;
}

// Gives the task a new order number.
pub(crate) fn renew(task: &mut Task, next_since: &mut u64)
    requires { next_since.old + 1 < 2 ^ 64 }
    ensures task { task.new ≡ renewed next_since.old task.old }
    ensures next { next_since.new ≡ next_since.old + 1 }
{
    task.since = *next_since;
    *next_since += 1;
}

// Counts one more tick of the task's time slice. If that ends the slice, a new one begins, the task
// gets a new order number, and the result is `true`.
pub(crate) fn count_slice_tick(task: &mut Task, next_since: &mut u64, slice: u32) -> bool
    requires { next_since.old + 1 < 2 ^ 64 }
    ensures over { result ≡ nat_le slice (task.old.turns + 1) }
    ensures task { task.new ≡ slice_counted slice next_since.old task.old }
    ensures next { next_since.new ≡ next_since.old + (if nat_le slice (task.old.turns + 1) then 1 else 0) }
{
    if u64::from(task.turns) + 1 >= u64::from(slice) {
        task.turns = 0;
        renew(task, next_since);
        true
    } else {
        task.turns += 1;
        false
    }
}
