//! What follows from the definitions of the calls alone.

ghost use Rattle.kernel_calls.specs.Laws.{OpeningLaw, CallLaw, EndLaw};
ghost use Rattle.kernel_calls.specs.Removing.{RemoveLaw, NoneBackLaw, SlotLaw};

/// The invariant of the world: it holds at the start, and every call keeps it, whoever makes the
/// call. A call ends no task that is safe from deletion, other than its caller; the shell's task
/// lives on. A call hands out few numbers. The end of a task keeps the invariant too.
pub fn world_law()
    ensures opening { OpeningLaw }
    ensures call { CallLaw }
    ensures end { EndLaw }
{}

/// The law of removed devices: `devRemove` by a task empties the slot of its argument and clears
/// the slot's line, and changes nothing else but the task's answer. No other call removes a device,
/// changes its state or changes a count of pending interrupts. No call puts a device back.
pub fn removal_law()
    ensures remove { RemoveLaw }
    ensures slots { SlotLaw }
    ensures back { NoneBackLaw }
{}
