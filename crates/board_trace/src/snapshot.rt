//! What a trace keeps of a state until the step after it is made.

ghost use Rattle.std.specs.Prelude.{◌≡◌, option_copied};
ghost use Rattle.board_trace.specs.Views.{view_of as view_of_lem};

use board_changes::{TaskView, WatchdogView};
use id_table::Ident;

/// Views of the tasks, the watchdogs and the modules of a state, and who ran last.
#[derive(Drop)]
pub struct Snapshot {
    /// The views of the tasks, by rising id.
    pub tasks: Vec<TaskView>,
    /// The views of the watchdogs, by rising id.
    pub watchdogs: Vec<WatchdogView>,
    /// The ids of the modules, rising.
    pub modules: Vec<Ident>,
    /// The task that ran last.
    pub last: Option<Ident>,
}

/// The view of the task whose id has this number.
pub fn view_of(views: &[TaskView], id: u32) -> Option<&TaskView>
    ensures { option_copied result ≡ view_of_lem views.now id }
{
    views.iter().find(|view| view.id.get() == id)
}
