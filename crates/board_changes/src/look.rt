//! What a task does at a moment.

ghost use Rattle.std.specs.Prelude.{◌≡◌};
ghost use Rattle.board_changes.specs.Looks.{is_same as is_same_lem, look_of as look_of_lem, standing_of as standing_of_lem};

use crate::{Awaited, TaskView};
use id_table::Ident;

/// What a task does.
#[derive(Clone, Copy, Debug, PartialEq, Eq)]
pub enum Standing {
    /// It runs.
    Running,
    /// It is ready, and another task or an interrupt routine runs.
    Ready,
    /// It waits for something.
    Waiting,
    /// It sleeps.
    Sleeping,
    /// It is suspended.
    Suspended,
}

/// What a task does, what it waits for, and whether its priority is inherited.
#[derive(Clone, Copy, Debug, PartialEq, Eq)]
pub struct Look {
    /// What it does.
    pub standing: Standing,
    /// What it waits for, if it waits.
    pub object: Option<Awaited>,
    /// Whether its priority differs from its normal one.
    pub inherits: bool,
}

// What a task does, given whether it is the one that runs.
fn standing_of(runs: bool, view: &TaskView) -> Standing
    ensures { result ≡ standing_of_lem runs view.now }
{
    if view.suspended {
        return Standing::Suspended;
    }
    if view.wait.is_some() {
        return Standing::Waiting;
    }
    if view.wake.is_some() {
        return Standing::Sleeping;
    }
    if runs {
        Standing::Running
    } else {
        Standing::Ready
    }
}

/// The look of a task, given which task runs, if one does.
pub fn look_of(runner: Option<Ident>, view: &TaskView) -> Look
    ensures { result ≡ look_of_lem runner view.now }
{
    let runs = match runner {
        Some(who) => who == view.id,
        None => false,
    };
    Look {
        standing: standing_of(runs, view),
        object: view.wait,
        inherits: view.pri != view.normal,
    }
}

/// Whether two looks of a task are the same. A task that waits makes no call, so it waits for the same
/// as before.
pub(crate) fn is_same(one: Look, other: Look) -> bool
    ensures { result ≡ is_same_lem one other }
{
    one.standing as u8 == other.standing as u8 && one.inherits == other.inherits
}
