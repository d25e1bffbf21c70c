//! What follows from the definitions alone.

ghost use Rattle.inheritance.specs.Laws.{WalkLaw, OwnerLaw, RaisedLaw, SameLaw, ExactLaw, ExactSameLaw, ExactUrgentLaw, ExactNormalLaw, UrgencyLaw, PremiseLaw, HeirsLaw};

/// The law of the walk from owner to owner, if each owner is at least as urgent as its waiters,
/// except one waiter. Raising gives that waiter's priority to the owners on its path before the
/// first that is at least as urgent, and changes no other priority.
pub fn walk_law()
    ensures { WalkLaw }
{}

/// The law of owners: after raising, no owner is less urgent than a waiter, along chains and in
/// cycles.
pub fn owner_law()
    ensures { OwnerLaw }
{}

/// The law of raising: each live owner of an inversion-safe mutex is then at least as urgent as
/// each of its waiters. If each was so before, nothing changes under profile 1.
pub fn raised_law()
    ensures raised { RaisedLaw }
    ensures same { SameLaw }
{}

/// The law of exact priorities: after raising, each task has exactly the priority that it inherits.
/// If each had it before, nothing changes, and each live owner is at least as urgent as each of its
/// waiters. Under profile 2 no task is then less urgent than its normal priority, and a task that
/// owns no inversion-safe mutex has its normal priority.
pub fn exact_law()
    ensures exact { ExactLaw }
    ensures same { ExactSameLaw }
    ensures urgent { ExactUrgentLaw }
    ensures normal { ExactNormalLaw }
{}

/// The walk law for tasks. Raising gives each live task the priority that the walk law names. If
/// each owner is at least as urgent as its waiters, except one waiter, the premise of the walk law
/// holds. So raising under profile 1 gives that waiter's priority to the live owners on its path
/// before the first that is at least as urgent, and changes no other priority.
pub fn urgency_law()
    ensures urgency { UrgencyLaw }
    ensures premise { PremiseLaw }
    ensures heirs { HeirsLaw }
{}
