//! What follows from the order of waiters alone, whatever the code does.

ghost use Rattle.wait_order.specs.Laws.{FirstLaw, NobodyLaw, PutLaw, TakeLaw};

/// The law of the first waiter: it waits at the place, and no waiter there is before it. If there is
/// none, no task waits there.
pub fn first_law()
    ensures first { FirstLaw }
    ensures nobody { NobodyLaw }
{}

/// The law of adding a waiter: it is there with its key, and the others stay as they were.
pub fn put_law()
    ensures { PutLaw }
{}

/// The law of removing a waiter: it isn't there, and the others stay as they were.
pub fn take_law()
    ensures { TakeLaw }
{}
