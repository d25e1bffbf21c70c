//! The name of a task of a snapshot.

ghost use Rattle.std.specs.Prelude.{◌≡◌, ◌≤◌, length};
ghost use Rattle.wind_base.specs.Limits.{longest_short_name};
ghost use Rattle.board_trace.specs.Views.{name_in as name_in_lem, snapshot_state};

use crate::snapshot::{Snapshot, view_of};

/// The name of the task with this id; no bytes, if there is no such task.
pub(crate) fn name_in(views: &Snapshot, id: u32) -> &[u8]
    ensures value { result.now ≡ name_in_lem (snapshot_state views.now) id }
    ensures within { length result.now ≤ longest_short_name }
{
    match view_of(&views.tasks, id) {
        Some(view) => view.name.bytes(),
        None => b"",
    }
}
