//! The object of a line.

ghost use Rattle.std.specs.Prelude.{◌≡◌, IfOk, OnOk};
ghost use Rattle.serde_json.specs.View.{view};
ghost use Rattle.trace_state.specs.Held.{members_in};
ghost use Rattle.trace_state.specs.Json.{with_all};
ghost use Rattle.trace_json.specs.Lines.{head_members, line_data, subject_members};

use crate::happenings::{add_happening, event_word};
use board_trace::{Happening, Subject, subject_of};
use serde_json::Value;
use std::alloc::{AllocError, Global};
use trace_state::{Members, time_shown};
use trace_text::Moment;

/// Adds when it happens, and the word for it.
pub(crate) fn add_head(members: &mut Members, at: Moment, event: &str) -> Result<(), AllocError>
    ensures { OnOk result (members_in members.new
        ≡ with_all (head_members at.time at.step event.now) (members_in members.old)) }
{
    members.put_number("time", time_shown(at.time))?;
    members.put_number("step", at.step)?;
    members.put_word("event", event)
}

// Adds the task that it happens to.
fn add_task(members: &mut Members, id: u32, name: &[u8]) -> Result<(), AllocError>
    ensures { OnOk result (members_in members.new
        ≡ with_all (subject_members (Subject.Task id) name.now) (members_in members.old)) }
{
    members.put_word("who", "task")?;
    members.put_number("task", u64::from(id))?;
    members.put_text("name", name)
}

// Adds who it happens to.
fn add_subject(members: &mut Members, who: Subject, name: &[u8]) -> Result<(), AllocError>
    ensures { OnOk result (members_in members.new ≡ with_all (subject_members who name.now) (members_in members.old)) }
{
    match who {
        Subject::Board => members.put_word("who", "board"),
        Subject::Interrupt => members.put_word("who", "interrupt"),
        Subject::Task(id) => add_task(members, id, name),
    }
}

/// The object of a happening in the step of this moment. The name is that of the task that it
/// happens to.
#[tactic(auto, unfolding(crate::specs::Lines::line_data))]
pub(crate) fn line_value(
    alloc: Global,
    at: Moment,
    name: &[u8],
    happening: &Happening,
) -> Result<Value, AllocError>
    ensures { IfOk result (λ v. view v ≡ line_data
        (record { time = at.time; step = at.step; name = name.now; what = happening.now })) }
{
    let mut members = Members::new(alloc);
    add_head(&mut members, at, event_word(happening))?;
    add_subject(&mut members, subject_of(happening), name)?;
    add_happening(alloc, &mut members, happening)?;
    Ok(members.finish())
}
