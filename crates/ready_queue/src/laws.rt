//! What follows from the order of ready tasks alone, whatever the code does.

ghost use Rattle.ready_queue.specs.Laws.{OrderLaw, FirstLaw};

/// The law of the order: after any tasks came and went, the rest are in order of priority, and
/// those of one priority in order of arrival.
pub fn order_law()
    ensures { OrderLaw }
{}

/// The law of the first task: it has the least priority number, and came before all others of that
/// priority.
pub fn first_law()
    ensures { FirstLaw }
{}
