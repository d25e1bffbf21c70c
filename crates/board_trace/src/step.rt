//! The happenings of a step.

ghost use Rattle.std.specs.Prelude.{◌≡◌, ◌++◌, map, OnOk};
ghost use Rattle.board_trace.specs.Views.{snapshot_state};
ghost use Rattle.board_trace.specs.Outside.{arrived, event_told, from_outside, is_last as is_last_lem, switches};
ghost use Rattle.board_trace.specs.Steps.{causes_in, changes_in, effects_in, happenings_from, has_written as has_written_lem, instruction_of, is_instruction as is_instruction_lem, writes};
ghost use Rattle.board_trace.specs.declared.happening.Happening.TheVariants as told;

use crate::calls::add_call;
use crate::happening::Happening;
use crate::level::{add_exception, add_if, add_routines, is_abort, is_exception, is_hearing};
use crate::list::add;
use crate::messages::add_messages;
use crate::moment::{AfterStep, BeforeStep};
use crate::owners::add_owners;
use crate::snapshot::Snapshot;
use board_changes::{Change, add_module_changes, add_task_changes, add_watchdog_changes};
use id_table::Ident;
use kernel_world::Actor;
use source_text::Text;
use std::alloc::Global;
use tick_file::Event;
use wind_base::NoMemory;
use wind_machine::Next;

/// What is read for the happenings of a step.
#[derive(Clone, Copy)]
pub struct StepViews<'a> {
    /// What is read of the state before the step.
    pub before_step: &'a BeforeStep,
    /// The snapshot before the step.
    pub before: &'a Snapshot,
    /// The snapshot after the step.
    pub after: &'a Snapshot,
    /// What is read of the state after the step.
    pub after_step: &'a AfterStep,
    /// What the step wrote.
    pub written: &'a [u8],
}

// The bytes that have arrived: as many as are left fewer.
fn arrival(before_step: &BeforeStep, after_step: &AfterStep) -> Happening
    ensures { result ≡ arrived before_step.now after_step.now }
{
    Happening::Arrival {
        count: before_step.left.saturating_sub(after_step.left),
    }
}

// The event of the tick file that occurs.
fn occurrence(event: Event, before_step: &BeforeStep, after_step: &AfterStep) -> Happening
    ensures { result ≡ event_told event before_step.now after_step.now }
{
    match event {
        Event::Tick => Happening::Tick {
            tick: after_step.tick,
        },
        Event::Rx(_) => arrival(before_step, after_step),
        Event::Irq(slot) => Happening::Interrupt { slot },
    }
}

// Adds what comes from outside.
fn add_outside(
    alloc: Global,
    list: &mut Vec<Happening>,
    before_step: &BeforeStep,
    after_step: &AfterStep,
) -> Result<(), NoMemory>
    ensures { OnOk result (list.new.items ≡ list.old.items
        ++ from_outside before_step.now.next before_step.now after_step.now) }
{
    match &before_step.next {
        Next::Deliver(slot) => add(list, Happening::Delivery { slot: *slot }),
        Next::Come(event) => add(list, occurrence(*event, before_step, after_step)),
        Next::Arrive => add(list, arrival(before_step, after_step)),
        Next::Load(name) => add(list, Happening::File(name.copied(alloc)?)),
        Next::Jump(time) => add(list, Happening::Jump { time: *time }),
        Next::Routine | Next::Act(_) | Next::Over => Ok(()),
    }
}

// Whether this task ran last.
fn is_last(last: Option<Ident>, who: Ident) -> bool
    ensures { result ≡ is_last_lem last who }
{
    match last {
        Some(last) => last == who,
        None => false,
    }
}

// Adds that a task runs in place of the one that ran last.
fn add_switch(
    list: &mut Vec<Happening>,
    before: &Snapshot,
    after: &Snapshot,
) -> Result<(), NoMemory>
    ensures { OnOk result (list.new.items ≡ list.old.items ++ switches before.now.last after.now.last) }
{
    let Some(who) = after.last else {
        return Ok(());
    };
    if is_last(before.last, who) {
        return Ok(());
    }
    let last = before.last;
    add(list, Happening::Runs { who, last })
}

// Collects what changed of tasks, watchdogs and modules.
fn collect(changes: &mut Vec<Change>, views: &StepViews<'_>) -> Result<(), NoMemory>
    ensures { OnOk result (changes.new.items ≡ changes_in views.now) }
{
    let (before, after) = (views.before, views.after);
    changes.clear();
    let results = !is_hearing(&views.before_step.next);
    let tick = views.after_step.tick;
    add_task_changes(changes, results, &before.tasks, &after.tasks)?;
    add_watchdog_changes(changes, tick, &before.watchdogs, &after.watchdogs)?;
    add_module_changes(changes, &before.modules, &after.modules)
}

// Adds these changes.
fn add_changes(list: &mut Vec<Happening>, changes: &[Change]) -> Result<(), NoMemory>
    ensures { OnOk result (list.new.items ≡ list.old.items ++ map told.Changed changes.now) }
{
    for change in changes {
        add(list, Happening::Changed(*change))?;
    }
    Ok(())
}

// Adds what the step wrote.
fn add_written(
    alloc: Global,
    list: &mut Vec<Happening>,
    who: Option<Actor>,
    written: &[u8],
) -> Result<(), NoMemory>
    ensures { OnOk result (list.new.items ≡ list.old.items ++ writes who written.now) }
{
    if written.is_empty() {
        return Ok(());
    }
    let bytes = Text::new(alloc, written)?;
    add(list, Happening::Writes { who, bytes })
}

// Whether a step wrote something.
fn has_written(written: &[u8]) -> bool
    ensures { result ≡ has_written_lem written.now }
{
    !written.is_empty()
}

/// Whether a step is one instruction, without an exception: a task or routine at no gate wrote
/// nothing.
pub fn is_instruction(before_step: &BeforeStep, written: &[u8]) -> bool
    ensures { result ≡ is_instruction_lem before_step.now written.now }
{
    before_step.at.is_some() && before_step.gate.is_none() && !has_written(written)
}

// Adds one instruction.
fn add_instruction(list: &mut Vec<Happening>, who: Option<Actor>) -> Result<(), NoMemory>
    ensures { OnOk result (list.new.items ≡ list.old.items ++ instruction_of who) }
{
    match who {
        Some(who) => add(list, Happening::Instructions { who, count: 1 }),
        None => Ok(()),
    }
}

// Adds what makes a step and how it goes.
fn add_causes(
    alloc: Global,
    list: &mut Vec<Happening>,
    views: &StepViews<'_>,
) -> Result<(), NoMemory>
    ensures { OnOk result (list.new.items ≡ list.old.items ++ causes_in views.now) }
{
    let (before_step, after_step) = (views.before_step, views.after_step);
    add_outside(alloc, list, before_step, after_step)?;
    add_switch(list, views.before, views.after)?;
    add_call(list, before_step, after_step.reply)?;
    let exception = is_exception(before_step, has_written(views.written));
    add_exception(list, exception, before_step, views.written)?;
    let aborts = is_abort(before_step, after_step, exception);
    add_if(list, aborts, Happening::Abort)
}

// Adds what a step leads to. These are its changes.
fn add_effects(
    alloc: Global,
    list: &mut Vec<Happening>,
    changes: &[Change],
    views: &StepViews<'_>,
) -> Result<(), NoMemory>
    requires { changes.now ≡ changes_in views.now }
    ensures { OnOk result (list.new.items ≡ list.old.items ++ effects_in views.now) }
{
    let (before_step, after_step) = (views.before_step, views.after_step);
    add_owners(list, before_step, after_step)?;
    add_messages(list, before_step, after_step.reply, changes)?;
    add_changes(list, changes)?;
    add_routines(list, before_step, after_step, has_written(views.written))?;
    add_written(alloc, list, before_step.actor, views.written)
}

/// Adds what happened in a step. `changes` holds what the step changed afterwards, if it wasn't one
/// instruction.
pub fn add_happenings(
    alloc: Global,
    list: &mut Vec<Happening>,
    changes: &mut Vec<Change>,
    views: &StepViews<'_>,
) -> Result<(), NoMemory>
    ensures { OnOk result (list.new.items ≡ list.old.items ++ happenings_from views.now.before_step.now
        (snapshot_state views.now.before.now) (snapshot_state views.now.after.now)
        views.now.after_step.now views.now.written.now) }
{
    if is_instruction(views.before_step, views.written) {
        add_switch(list, views.before, views.after)?;
        return add_instruction(list, views.before_step.actor);
    }
    add_causes(alloc, list, views)?;
    collect(changes, views)?;
    add_effects(alloc, list, changes, views)
}
