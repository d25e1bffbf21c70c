//! What follows from the order of wakes alone, whatever the code does.

ghost use Rattle.delay_queue.specs.Laws.{OrderLaw, DueLaw, NobodyLaw};

/// The law of the order: after any tasks came and went, the rest are in order of their wakes, and
/// those of one wake in order of arrival.
pub fn order_law()
    ensures { OrderLaw }
{}

/// The law of the due task: it has the least wake, that wake is reached, and the task came before
/// all others of that wake. If no task is due, no wake is reached.
pub fn due_law()
    ensures first { DueLaw }
    ensures nobody { NobodyLaw }
{}
