//! What the coverage of a run lists.

ghost use Rattle.trace_coverage.specs.Executed.{ListsRuns};

/// Does nothing. Its contract is the law of the coverage: a word is listed for a module exactly if
/// a step of the run executed the instruction at its address while the module was loaded, and the
/// word lies in the module's text segment.
pub fn coverage_law()
    ensures { ListsRuns }
{}
