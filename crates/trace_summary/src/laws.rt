//! Laws of the figures, each as the clause of a function.

ghost use Rattle.trace_summary.specs.LongestLaws.{LongestLaw};
ghost use Rattle.trace_summary.specs.TasksLaws.{TasksLaw};

/// The longest stretch is one of the stretches, and none is longer; so is the greatest number among
/// numbers.
pub fn longest_law()
    ensures { LongestLaw }
{}

/// A summary has one row for each task that lives at the start and each that a line tells of, and
/// no other row.
pub fn tasks_law()
    ensures { TasksLaw }
{}
