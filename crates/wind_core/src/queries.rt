//! Queries about the tasks, to be made before a call.

ghost use Rattle.std.specs.Prelude.{◌≡◌, option_copied};
ghost use Rattle.std.specs.Option.{option_map};
ghost use Rattle.id_table.specs.Rows.{objects};
ghost use Rattle.wind_core.specs.State.{task_id, task_named};
ghost use Rattle.wind_core.specs.Moves.{spawn_refusal as spawn_refusal_lem};

use crate::kern::Kern;
use id_table::{Ident, Table};
use task_block::Task;
use wind_base::Errno;

// The task with this name that has the least id.
fn first_named<'a>(tasks: &'a Table<Task>, name: &[u8]) -> Option<&'a Task>
    ensures { option_copied result ≡ task_named (objects tasks.now.rows) name.now }
{
    for index in 0..tasks.len() {
        let task = tasks.value_at(index);
        if task.name.bytes() == name {
            return Some(task);
        }
    }
    None
}

impl Kern {
    /// Why no task can be made now: `TooMany` if 256 tasks are live; otherwise `IdsSpent` if no id
    /// is left. None if a task can be made.
    pub fn spawn_refusal(&self) -> Option<Errno>
        ensures { result ≡ spawn_refusal_lem self.now }
    {
        self.tasks.next_id(&self.ids).err()
    }

    /// The id of the task that ran last.
    pub fn last(&self) -> Option<Ident>
        ensures { result ≡ self.now.last }
    {
        self.last
    }

    /// The id of the task with this name: the least one, if several tasks have the name.
    pub fn named(&self, name: &[u8]) -> Option<Ident>
        ensures { result ≡ option_map task_id (task_named self.now.tasks name.now) }
    {
        match first_named(&self.tasks, name) {
            Some(task) => Some(task.id),
            None => None,
        }
    }
}
