//! Laws of the lines, each as the clause of a function with nothing to do.

ghost use Rattle.trace_text.specs.Joining.{JoiningLaw};

/// Instructions that are made in one go, and one more, are one line.
pub fn joining_law()
    ensures { JoiningLaw }
{}
