//! What follows from the definitions alone.

ghost use Rattle.msg_queue.specs.Laws.{ConservationLaw, RunLaw, StartLaw, CountLaw, KeptLaw, CreateLaw, CalmLaw, ThenLaw, SeriesLaw};

/// The law of conservation. For each queue that is live after some steps of the machine of calls:
/// the accepted messages are those taken and those held, each list of bytes as often. If none was
/// urgent, they are in the same order.
pub fn conservation_law()
    ensures { ConservationLaw }
{}

/// The same for any machine with queues, if what each step accepts and takes agrees with what they
/// hold.
pub fn run_law()
    ensures { RunLaw }
{}

/// The law of the queues' invariant: it holds if there are no queues and no task waits. Each step
/// and each new queue keep it.
pub fn kept_law()
    ensures start { StartLaw }
    ensures steps { KeptLaw }
    ensures creates { CreateLaw }
{}

/// The law of calm moves: no move of the kernel begins a wait at a queue, unless it is a pend
/// there; so no list of moves does.
pub fn calm_law()
    ensures one { CalmLaw }
    ensures both { ThenLaw }
    ensures series { SeriesLaw }
{}

/// The law of the counters: no call changes the tick count, and each call gives a bounded number of
/// order numbers.
pub fn count_law()
    ensures { CountLaw }
{}
