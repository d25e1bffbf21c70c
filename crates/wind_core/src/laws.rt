//! What follows from the kernel's definitions alone, whatever its code does.

ghost use Rattle.wind_core.specs.Laws.{RunnerLaw, LockLaw, IdleLaw, WaitersLaw, WakeAllLaw, TickLaw, AheadLaw, KeptLaw, SeriesLaw};

/// The law of the running task: it is live and ready, and no ready task is before it, unless it ran
/// last and holds the scheduler lock. A ready task that ran last and holds the lock goes on. If no
/// task runs, no task is ready.
pub fn runner_law()
    ensures runs { RunnerLaw }
    ensures lock { LockLaw }
    ensures idle { IdleLaw }
{}

/// The law of the orders by wait, by urgency and by arrival: of two tasks, one is before the other.
pub fn waiters_law()
    ensures { WaitersLaw }
{}

/// The law of waking all: no task waits at the place any more.
pub fn wake_all_law()
    ensures { WakeAllLaw }
{}

/// The law of a tick: it keeps the kernel's invariant, the tick count rises by one, and every wake
/// is then in the future.
pub fn tick_law()
    ensures kept { TickLaw }
    ensures ahead { AheadLaw }
{}

/// The law of the kernel's invariant: every move keeps it, whether the task that it names is live
/// or not, and so does every list of moves.
pub fn kept_law()
    ensures one { KeptLaw }
    ensures series { SeriesLaw }
{}
