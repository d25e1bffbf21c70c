//! What follows from the definitions alone.

ghost use Rattle.sem_mutex.specs.Laws.{BesideLaw, SafetyLaw, OpeningLaw, IdleLaw, SettleLaw, SettledLaw, CallsLaw, GoneLaw, PendingLaw, RepricingLaw, WaitingLaw, SettingLaw};

/// The laws of the mutexes' invariant. It holds if there are no tasks and no mutexes. Every kernel
/// move that leaves mutexes alone keeps it. The calls on safe sections, deletions of tasks and the
/// calls on mutexes keep it. If it holds, raising changes nothing under profile 1, nor under profile
/// 2 if priorities are exact. Raising keeps it and makes priorities exact; all that is true of
/// priorities at the end of a step is then true. No task waits for a deleted mutex.
pub fn kept_law()
    ensures opening { OpeningLaw }
    ensures beside { BesideLaw }
    ensures safety { SafetyLaw }
    ensures calls { CallsLaw }
    ensures idle { IdleLaw }
    ensures settle { SettleLaw }
    ensures settled { SettledLaw }
    ensures gone { GoneLaw }
{}

/// The law of inheritance under profile 1. In a state with the invariant, after a task begins to
/// wait for a mutex, or after its normal priority is set, each owner is at least as urgent as its
/// waiters, except that task: the premise of the walk law. So a take that waits, and the setting of
/// a priority, give the task's priority to the live owners on its path before the first that is at
/// least as urgent, and change no other task's priority.
pub fn inherit_law()
    ensures pending { PendingLaw }
    ensures repricing { RepricingLaw }
    ensures waiting { WaitingLaw }
    ensures setting { SettingLaw }
{}
