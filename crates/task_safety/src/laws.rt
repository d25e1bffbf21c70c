//! What follows from the definitions alone.

ghost use Rattle.task_safety.specs.Laws.{GoneLaw, KeptLaw, CallsLaw};

/// The law of removal: a call removes a task only if that isn't in a safe section, or is the
/// caller.
pub fn gone_law()
    ensures { GoneLaw }
{}

/// The law of waits for a deletion: such a wait names a live task in a safe section, and the
/// waiting task will repeat its call. A move keeps that if it leaves these waits alone. The calls
/// on safe sections, and deletions, keep it too.
pub fn kept_law()
    ensures moves { KeptLaw }
    ensures calls { CallsLaw }
{}
