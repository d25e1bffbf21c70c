//! The object of the end of a run.

ghost use Rattle.std.specs.Prelude.{◌≡◌, IfOk};
ghost use Rattle.serde_json.specs.View.{view};
ghost use Rattle.trace_state.specs.Json.{list_of};
ghost use Rattle.trace_text.specs.Forms.{outcome_state};
ghost use Rattle.trace_json.specs.Lines.{end_data, standing_data};

use crate::lines::add_head;
use board_changes::TaskView;
use serde_json::Value;
use std::alloc::{AllocError, Global};
use trace_state::{Items, Members, number_or_null, wait_value};
use trace_text::Outcome;

// A task when the run has ended.
fn standing(alloc: Global, task: &TaskView) -> Result<Value, AllocError>
    ensures { IfOk result (λ v. view v ≡ standing_data task.now) }
{
    let mut members = Members::new(alloc);
    members.put_number("task", u64::from(task.id.get()))?;
    members.put_text("name", task.name.bytes())?;
    let wait = wait_value(alloc, &task.wait)?;
    members.put("wait", wait)?;
    members.put("until", number_or_null(task.wake))?;
    members.put_flag("suspended", task.suspended)?;
    Ok(members.finish())
}

// The tasks when the run has ended.
fn standings(alloc: Global, tasks: &[TaskView]) -> Result<Value, AllocError>
    ensures { IfOk result (λ v. view v ≡ list_of standing_data tasks.now) }
{
    let mut items = Items::new(alloc);
    for task in tasks {
        items.add(standing(alloc, task)?)?;
    }
    Ok(items.finish())
}

/// The object of the end of a run.
#[tactic(auto, unfolding(crate::specs::Lines::end_data))]
pub(crate) fn end_value(alloc: Global, outcome: &Outcome) -> Result<Value, AllocError>
    ensures { IfOk result (λ v. view v ≡ end_data (outcome_state outcome.now)) }
{
    let mut members = Members::new(alloc);
    add_head(&mut members, outcome.at, "end")?;
    members.put_text("how", outcome.how)?;
    let tasks = standings(alloc, outcome.tasks)?;
    members.put("tasks", tasks)?;
    members.put_number("left", outcome.left)?;
    Ok(members.finish())
}
