//! Updates the queues after a task has changed.

ghost use Rattle.std.specs.Prelude.{◌≡◌, ◌<◌, length, if◌then◌else◌};
ghost use Rattle.wait_order.specs.Line.{without_waiter};
ghost use Rattle.ready_queue.specs.Order.{taken_out as ready_without, rotated};
ghost use Rattle.delay_queue.specs.Wakes.{taken_out as delays_without};
ghost use Rattle.wind_core.specs.Orders.{wait_pri as wait_pri_lem};
ghost use Rattle.wind_core.specs.Waiting.{mended};
ghost use Rattle.wind_core.specs.Queues.{HaveRoom, ready_mended, delays_mended};

use delay_queue::Delays;
use id_table::Ident;
use ready_queue::Ready;
use task_block::Task;
use wait_order::Waits;

// The priority by which a task waits: 0, the most urgent, if it waits in order of arrival.
fn wait_pri(task: &Task) -> u32
    ensures { result ≡ wait_pri_lem task.now }
{
    if task.fifo { 0 } else { task.pri.get() }
}

// Updates the task in the line of waiting tasks: as it waits now, or not at all.
#[tactic(auto, using(crate::proofs::Waiting::taken_absent))]
pub(crate) fn mend_waits(waits: &mut Waits, task: &Task)
    requires { length (without_waiter waits.old task.now.id).waiters < waits.old.room }
    ensures { waits.new ≡ mended waits.old task.now }
{
    waits.take(task.id);
    if let Some(place) = task.wait {
        waits.put(place, task.id, wait_pri(task), task.since);
    }
}

// Updates the task in the queue of ready tasks: after all others of its priority, or not at all.
#[tactic(auto, using(ready_queue::proofs::Rotation::taken_absent))]
pub(crate) fn mend_ready(ready: &mut Ready, task: &Task)
    requires { length (ready_without ready.old.tasks task.now.id) < ready.old.room }
    ensures { ready.new ≡ ready_mended ready.old task.now }
{
    ready.take(task.id);
    if task.ready() {
        ready.put(task.pri, task.id);
    }
}

// Updates the task in the queue of wakes: after all tasks with the same wake or an earlier one, or
// not at all.
#[tactic(auto, using(delay_queue::proofs::Waiting::taken_absent))]
pub(crate) fn mend_delays(delays: &mut Delays, task: &Task)
    requires { length (delays_without delays.old.tasks task.now.id) < delays.old.room }
    ensures { delays.new ≡ delays_mended delays.old task.now }
{
    delays.take(task.id);
    if let Some(wake) = task.wake {
        delays.put(task.id, wake);
    }
}

// Updates the task in all queues. If it is ready or has a wake, it goes after its equals.
pub(crate) fn mend(waits: &mut Waits, ready: &mut Ready, delays: &mut Delays, task: &Task)
    requires { HaveRoom waits.old ready.old delays.old task.now.id }
    ensures waits { waits.new ≡ mended waits.old task.now }
    ensures ready { ready.new ≡ ready_mended ready.old task.now }
    ensures delays { delays.new ≡ delays_mended delays.old task.now }
{
    mend_waits(waits, task);
    mend_ready(ready, task);
    mend_delays(delays, task);
}

// Moves the task after all others of its priority, if its time slice is over.
pub(crate) fn rotate_over(ready: &mut Ready, who: Ident, over: bool)
    ensures { ready.new ≡ (if over then rotated ready.old who else ready.old) }
{
    if over {
        ready.rotate(who);
    }
}
