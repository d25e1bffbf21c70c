//! The calls on watchdogs.

ghost use Rattle.std.specs.Prelude.{◌≡◌, ◌<◌, ◌^◌, false};
ghost use Rattle.isr_watch.specs.Laws.{AllBelow};
ghost use Rattle.call_rows.specs.WatchRows.{row_of, create_row, start_row, cancel_row, delete_row};
ghost use Rattle.wind_core.specs.State.{KernState};

use isr_watch::{Routine, Watch};
use kernel_world::{DONE, Reply};
use wind_base::Errno;
use wind_core::Kern;

/// wdCreate: makes a watchdog. Refused if no more watchdogs may live, or if no id is left.
pub fn create(kern: &mut Kern, watch: &mut Watch) -> Reply
    requires home { kern.old.lent ≡ false }
    requires below { AllBelow kern.old.next_id watch.old }
    ensures row { row_of kern.new watch.new result ≡ create_row kern.old watch.old }
{
    match watch.create(kern) {
        Ok(id) => Reply::Answer(id.get()),
        Err(errno) => Reply::Refusal(errno),
    }
}

/// wdStart: the watchdog's routine is due `delay` ticks from now. Refused if no such watchdog
/// lives.
pub fn start(kern: &Kern, watch: &mut Watch, id: u32, delay: u32, routine: Routine) -> Reply
    requires tick { kern.now.tick < 2 ^ 63 }
    requires next { watch.old.next_start < 2 ^ 63 }
    ensures row { row_of kern.now watch.new result ≡ start_row kern.now watch.old id delay routine }
{
    match watch.start(id, kern.ticks(), delay, routine) {
        Ok(()) => DONE,
        Err(errno) => Reply::Refusal(errno),
    }
}

/// wdCancel: stops the watchdog. Refused if no such watchdog lives.
pub fn cancel(watch: &mut Watch, id: u32) -> Reply
    ensures row { (k : KernState) → row_of k watch.new result ≡ cancel_row k watch.old id }
{
    match watch.cancel(id) {
        Ok(()) => DONE,
        Err(errno) => Reply::Refusal(errno),
    }
}

/// wdDelete: deletes the watchdog. Refused if no such watchdog lives.
pub fn delete(watch: &mut Watch, id: u32) -> Reply
    ensures row { (k : KernState) → row_of k watch.new result ≡ delete_row k watch.old id }
{
    match watch.delete(id) {
        Ok(()) => DONE,
        Err(errno) => Reply::Refusal(errno),
    }
}
