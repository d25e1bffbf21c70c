//! What follows from the definitions of semaphores alone, whatever the code does.

ghost use Rattle.sem_plain.specs.Laws.{KernelLaw, ThenLaw, SeriesLaw, BesideLaw, LiveBesideLaw, CallsLaw, LiveCallsLaw, HandLaw, WokenLaw};

/// The law of the kernel's moves: which waits each move begins, and which waits a list of moves
/// begins. Any move that begins no other waits keeps the semaphores' invariant, and that each wait
/// is for a live object.
pub fn kernel_law()
    ensures moves { KernelLaw }
    ensures compose { ThenLaw }
    ensures series { SeriesLaw }
    ensures kept { BesideLaw }
    ensures live { LiveBesideLaw }
{}

/// The law of the calls on semaphores: each keeps the semaphores' invariant, and that each wait is
/// for a live object.
pub fn calls_law()
    ensures kept { CallsLaw }
    ensures live { LiveCallsLaw }
{}

/// The law of waiters: a give hands the semaphore to a task before which no other waits, and after
/// a flush or a deletion no task waits for it.
pub fn waiters_law()
    ensures hand { HandLaw }
    ensures woken { WokenLaw }
{}
