//! What follows from the definitions alone.

ghost use Rattle.shell_eval.specs.Laws.{SmallerLaw, RepeatsLaw, BegunLaw, StepLaw, CallLaw, FillLaw, EndsLaw};
ghost use Rattle.shell_eval.specs.Kept.{KeepsLaw, OutputLaw};

/// Evaluation makes one reduction after another. Each makes the tree smaller, so evaluation ends.
/// At most one call's answer is awaited.
pub fn evaluation_law()
    ensures smaller { SmallerLaw }
    ensures repeats { RepeatsLaw }
    ensures begun { BegunLaw }
    ensures step { StepLaw }
    ensures call { CallLaw }
    ensures fill { FillLaw }
    ensures ends { EndsLaw }
{}

/// What evaluation keeps, whatever is evaluated, and the most that it writes.
pub fn keeping_law()
    ensures keeps { KeepsLaw }
    ensures output { OutputLaw }
{}
