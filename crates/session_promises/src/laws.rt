//! What follows from the machine's definitions alone, whatever the code does.

ghost use Rattle.session_promises.specs.Promises.{PromiseLaw};

use wind_console::console_law;
use wind_machine::{interrupt_law, loading_law, run_law};
use wind_messages::message_law;

/// The law of runs, all in one: after any number of steps of every run, the most urgent ready task
/// runs and owners inherit; the next step ends no task that is safe from deletion, unless that task
/// makes it; messages, interrupts and console bytes are conserved; and a load that comes next writes
/// no RAM outside its own blocks.
pub fn promise_law()
    ensures { PromiseLaw }
{
    loading_law();
    run_law();
    message_law();
    interrupt_law();
    console_law();
}
