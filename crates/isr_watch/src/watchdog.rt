//! A watchdog, and the routine that it calls.

ghost use Rattle.std.specs.Prelude.{◌≡◌, ◌<◌, ◌≤◌, ◌^◌, option_copied};
ghost use Rattle.wind_base.specs.Limits.{frame_bytes};
ghost use Rattle.id_table.specs.Sorting.{pick};
ghost use Rattle.isr_watch.specs.State.{is_due as is_due_lem, starts_before, start_of as start_of_lem};
ghost use Rattle.isr_watch.specs.Calls.{new_watchdog, routine_regs, started, stopped};
ghost use Rattle.isr_watch.specs.Inside.{DueFrom, alarm_of as alarm_of_lem};

use id_table::Ident;
use wind_base::Regs;
use wind_base::limits::FRAME_BYTES;

/// A routine and its parameter.
#[derive(Clone, Copy, Debug, Default, PartialEq, Eq)]
pub struct Routine {
    /// The address of its first instruction.
    pub entry: u32,
    /// The parameter, passed in r3.
    pub param: u32,
}

/// When a running watchdog is due.
#[derive(Clone, Copy)]
pub struct Timer {
    /// The tick at which it is due.
    pub due: u64,
    /// The number of its start: the lower number is the earlier start.
    pub start: u64,
}

/// A watchdog.
#[derive(Drop)]
pub struct Watchdog {
    /// The id by which calls name it.
    pub id: Ident,
    /// The routine that it calls.
    pub routine: Routine,
    /// When it is due, if it is running.
    pub timer: Option<Timer>,
}

// A watchdog that is due, with its routine.
#[derive(Clone, Copy)]
pub(crate) struct Alarm {
    pub(crate) id: Ident,
    pub(crate) routine: Routine,
}

// A watchdog that was never started.
pub(crate) fn new_watchdog(id: Ident) -> Watchdog
    ensures { result ≡ new_watchdog id }
{
    Watchdog {
        id,
        routine: Routine { entry: 0, param: 0 },
        timer: None,
    }
}

// Whether a watchdog is running and its tick is reached.
fn is_due(watchdog: &Watchdog, tick: u64) -> bool
    ensures { result ≡ is_due_lem tick watchdog.now }
{
    match watchdog.timer {
        Some(timer) => timer.due <= tick,
        None => false,
    }
}

// The tick at which a watchdog is due. The greatest number if it isn't running.
pub(crate) fn due_of(watchdog: &Watchdog) -> u64
    ensures { DueFrom result watchdog.now }
{
    match watchdog.timer {
        Some(timer) => timer.due,
        None => u64::MAX,
    }
}

fn start_of(watchdog: &Watchdog) -> u64
    ensures { result ≡ start_of_lem watchdog.now.timer }
{
    match watchdog.timer {
        Some(timer) => timer.start,
        None => 0,
    }
}

// The watchdog if it is due and was started before the best so far; otherwise the best so far.
pub(crate) fn better_due<'a>(
    best: Option<&'a Watchdog>,
    next: &'a Watchdog,
    tick: u64,
) -> Option<&'a Watchdog>
    ensures { option_copied result ≡ pick starts_before (is_due_lem tick) (option_copied best.entry) next.now }
{
    match best {
        Some(b) if is_due(next, tick) && start_of(next) < start_of(b) => Some(next),
        None if is_due(next, tick) => Some(next),
        _ => best,
    }
}

// The watchdog as one that is due.
pub(crate) fn alarm_of(watchdog: &Watchdog) -> Alarm
    ensures { result ≡ alarm_of_lem watchdog.now }
{
    Alarm {
        id: watchdog.id,
        routine: watchdog.routine,
    }
}

// The registers with which a routine begins that returns to `link`.
pub(crate) fn routine_regs(top: u32, link: u32, routine: Routine) -> Regs
    requires { frame_bytes ≤ top }
    ensures { result ≡ routine_regs top link routine }
{
    let mut gpr = [0; 32];
    gpr[1] = top - FRAME_BYTES;
    gpr[3] = routine.param;
    Regs {
        gpr,
        cr: 0,
        xer: 0,
        lr: link,
        ctr: 0,
        pc: routine.entry,
        reserve: None,
    }
}

// Starts it at this tick, for `delay` ticks, or for one if `delay` is 0. Returns the tick at which
// it is due.
pub(crate) fn begin(
    watchdog: &mut Watchdog,
    tick: u64,
    delay: u32,
    routine: Routine,
    start: u64,
) -> u64
    requires { tick < 2 ^ 63 }
    ensures started { watchdog.new ≡ started tick delay routine start watchdog.old }
    ensures due { DueFrom result watchdog.new }
{
    let due = tick + u64::from(delay.max(1));
    watchdog.routine = routine;
    watchdog.timer = Some(Timer { due, start });
    due
}

// Stops it.
pub(crate) fn stop(watchdog: &mut Watchdog)
    ensures { watchdog.new ≡ stopped watchdog.old }
{
    watchdog.timer = None;
}
