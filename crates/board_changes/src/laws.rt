//! What follows from the definitions of changes and spans alone.

ghost use Rattle.board_changes.specs.Replay.{ReplayLaw};
ghost use Rattle.board_changes.specs.Tiling.{OneRunsLaw, TilingLaw};

/// The law of spans: at each time before the end of a run, the spans of a task say once how it
/// looked when it was last observed, if it lived then, and nothing if it didn't. So they tile its
/// life without gap or overlap. At most one task runs at a time.
pub fn spans_law()
    ensures tiles { TilingLaw }
    ensures one { OneRunsLaw }
{}

/// The law of replay: whether a task lives, its wait, wake and suspension, its priority and its
/// normal priority after a step follow from those before it and the changes that name it.
pub fn replay_law()
    ensures { ReplayLaw }
{}
