//! What follows from the definitions of a run in which each module file has one answer.

ghost use Rattle.again.specs.Laws.{AnswersLaw, OneRunLaw};

/// The law of one run. If the steps of a run of the machine get a library's answers, the run is at
/// the library's state after each number of steps; and the library's own answers make such a run.
pub fn one_run_law()
    ensures one { OneRunLaw }
    ensures answers { AnswersLaw }
{}
