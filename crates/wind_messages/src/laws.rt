//! What follows from the machine's definitions alone, whatever the code does.

ghost use Rattle.wind_messages.specs.Laws.{ConservationLaw};

use wind_machine::{loading_law, run_law};

/// The law of messages, for every console file, tick file and list of devices, and whatever is said
/// of module files. For each queue that is live after *k* steps, the accepted messages are, each as
/// often, the taken messages followed by those in the queue. If none of them was urgent, they are
/// also in the same order.
pub fn message_law()
    ensures { ConservationLaw }
{
    loading_law();
    run_law();
}
