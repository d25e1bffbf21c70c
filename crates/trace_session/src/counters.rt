//! The counters of a trace.

ghost use Rattle.std.specs.Prelude.{◌≡◌, ◌==◌, ◌+◌, ◌<◌, ◌^◌, [], if◌then◌else◌, OnOk};
ghost use Rattle.std.specs.List.{flat_map, list_any};
ghost use Rattle.wind_session.specs.BoardPlayerSeen.{seen};
ghost use Rattle.trace_text.specs.Forms.{Gained};
ghost use Rattle.trace_json.specs.Chrome.{AreMembers};
ghost use Rattle.trace_session.specs.Choice.{choice_state};
ghost use Rattle.trace_session.specs.Counters.{changed_objects, counter_objects, counters_in, counters_outside, counts_in, counts_state, deleted_objects, first_counters, is_same_count, no_counts, queue_objects, ready_objects, stays_or_is_empty as stays_or_is_empty_lem, step_counters, tells_counter as tells_counter_lem, was_number as was_number_lem};
ghost use Rattle.trace_session.specs.declared.choice.Kind.TheVariants as kinds;

use crate::choice::{Choice, Kind};
use crate::numbers::{Counts, QueueCount};
use board_trace::{BeforeStep, Subject, is_instruction};
use std::alloc::Global;
use trace_json::{add_messages, add_ready};
use wind_base::NoMemory;
use wind_outside::Device;
use wind_session::Board;

// Counters of this kind are told.
fn tells_counter(choice: &Choice, kind: Kind) -> bool
    ensures { result ≡ tells_counter_lem (choice_state choice.now) kind }
{
    choice.has_subject(Subject::Board) && choice.has_kind(kind)
}

// This number was there before.
fn was_number(before: Option<u64>, number: u64) -> bool
    ensures { result ≡ was_number_lem before number }
{
    match before {
        Some(old) => old == number,
        None => false,
    }
}

// Adds the counter of ready tasks, if their number isn't the one before.
fn add_ready_changed(
    alloc: Global,
    text: &mut Vec<u8>,
    time: u128,
    before: Option<u64>,
    after: Option<u64>,
) -> Result<(), NoMemory>
    ensures { OnOk result (Gained (AreMembers (ready_objects time before after)) text.old.items text.new.items) }
{
    let Some(number) = after else {
        return Ok(());
    };
    if was_number(before, number) {
        return Ok(());
    }
    add_ready(alloc, text, time, number)
}

// These counts have this one.
fn has_count(counts: &[QueueCount], count: &QueueCount) -> bool
    ensures { result ≡ list_any (λ p. is_same_count p count.now) counts.now }
{
    counts.iter().any(|other| other.queue == count.queue && other.messages == count.messages)
}

// These counts have one of this queue.
fn has_queue(counts: &[QueueCount], queue: u32) -> bool
    ensures { result ≡ list_any (λ q. q.queue == queue) counts.now }
{
    counts.iter().any(|count| count.queue == queue)
}

// Adds the counter of a queue, if its number isn't the one before.
fn add_queue_changed(
    alloc: Global,
    text: &mut Vec<u8>,
    time: u128,
    before: &[QueueCount],
    count: &QueueCount,
) -> Result<(), NoMemory>
    ensures { OnOk result (Gained (AreMembers (changed_objects time before.now count.now))
        text.old.items text.new.items) }
{
    if has_count(before, count) {
        return Ok(());
    }
    add_messages(alloc, text, time, count.queue, count.messages)
}

// Adds the counters of queues whose number isn't the one before.
fn add_changed(
    alloc: Global,
    text: &mut Vec<u8>,
    time: u128,
    before: &[QueueCount],
    after: &[QueueCount],
) -> Result<(), NoMemory>
    ensures { OnOk result (Gained (AreMembers (flat_map (changed_objects time before.now) after.now))
        text.old.items text.new.items) }
{
    for count in after {
        add_queue_changed(alloc, text, time, before, count)?;
    }
    Ok(())
}

// A queue is among these, or it had no messages.
fn stays_or_is_empty(after: &[QueueCount], count: &QueueCount) -> bool
    ensures { result ≡ stays_or_is_empty_lem after.now count.now }
{
    has_queue(after, count.queue) || count.messages == 0
}

// Adds that a queue has no messages any more, if it was deleted.
fn add_queue_deleted(
    alloc: Global,
    text: &mut Vec<u8>,
    time: u128,
    after: &[QueueCount],
    count: &QueueCount,
) -> Result<(), NoMemory>
    ensures { OnOk result (Gained (AreMembers (deleted_objects time after.now count.now))
        text.old.items text.new.items) }
{
    if stays_or_is_empty(after, count) {
        return Ok(());
    }
    add_messages(alloc, text, time, count.queue, 0)
}

// Adds the counters of queues that were deleted.
fn add_deleted(
    alloc: Global,
    text: &mut Vec<u8>,
    time: u128,
    before: &[QueueCount],
    after: &[QueueCount],
) -> Result<(), NoMemory>
    ensures { OnOk result (Gained (AreMembers (flat_map (deleted_objects time after.now) before.now))
        text.old.items text.new.items) }
{
    for count in before {
        add_queue_deleted(alloc, text, time, after, count)?;
    }
    Ok(())
}

// Adds the counters of queues whose number changes.
fn add_queues(
    alloc: Global,
    text: &mut Vec<u8>,
    time: u128,
    before: &[QueueCount],
    after: &[QueueCount],
) -> Result<(), NoMemory>
    ensures { OnOk result (Gained (AreMembers (queue_objects time before.now after.now)) text.old.items text.new.items) }
{
    add_changed(alloc, text, time, before, after)?;
    add_deleted(alloc, text, time, before, after)
}

// Adds the counter of ready tasks, if it is told and changes.
fn add_ready_told(
    alloc: Global,
    text: &mut Vec<u8>,
    choice: &Choice,
    time: u128,
    before: &Counts,
    after: &Counts,
) -> Result<(), NoMemory>
    ensures { OnOk result (Gained (AreMembers (if tells_counter_lem (choice_state choice.now) kinds.Runs
        then ready_objects time before.now.ready after.now.ready else [])) text.old.items text.new.items) }
{
    if tells_counter(choice, Kind::Runs) {
        return add_ready_changed(alloc, text, time, before.ready, after.ready);
    }
    Ok(())
}

// Adds the counters of queues that change, if they are told.
fn add_queues_told(
    alloc: Global,
    text: &mut Vec<u8>,
    choice: &Choice,
    time: u128,
    before: &Counts,
    after: &Counts,
) -> Result<(), NoMemory>
    ensures { OnOk result (Gained (AreMembers (if tells_counter_lem (choice_state choice.now) kinds.Messages
        then queue_objects time before.now.queues.now after.now.queues.now else [])) text.old.items text.new.items) }
{
    if tells_counter(choice, Kind::Messages) {
        return add_queues(alloc, text, time, before.queues, after.queues);
    }
    Ok(())
}

// Adds the counters that are told and change.
fn add_counters(
    alloc: Global,
    text: &mut Vec<u8>,
    choice: &Choice,
    time: u128,
    before: &Counts,
    after: &Counts,
) -> Result<(), NoMemory>
    ensures { OnOk result (Gained (AreMembers (counter_objects (choice_state choice.now) time
        (counts_state before.now) (counts_state after.now))) text.old.items text.new.items) }
{
    add_ready_told(alloc, text, choice, time, before, after)?;
    add_queues_told(alloc, text, choice, time, before, after)
}

// Adds all counters that are told.
fn add_all(
    alloc: Global,
    text: &mut Vec<u8>,
    choice: &Choice,
    time: u128,
    after: &Counts,
) -> Result<(), NoMemory>
    ensures { OnOk result (Gained (AreMembers (counter_objects (choice_state choice.now) time
        no_counts (counts_state after.now))) text.old.items text.new.items) }
{
    let before = Counts {
        ready: None,
        queues: &[],
    };
    add_counters(alloc, text, choice, time, &before, after)
}

/// Adds the counters before the first step of a board, if it is one of the choice.
pub(crate) fn add_first_counters(
    alloc: Global,
    text: &mut Vec<u8>,
    choice: &Choice,
    board: &Board,
    counts: &Counts,
) -> Result<(), NoMemory>
    requires few { (seen ⟦<dyn Device as Device>⟧ board.now).steps + 1 < 2 ^ 64 }
    requires counts { counts_state counts.now ≡ counts_in (seen ⟦<dyn Device as Device>⟧ board.now) }
    ensures { OnOk result (Gained (AreMembers (first_counters (choice_state choice.now)
        (seen ⟦<dyn Device as Device>⟧ board.now))) text.old.items text.new.items) }
{
    if choice.has_step(board.steps() + 1) {
        return add_all(alloc, text, choice, board.time(), counts);
    }
    Ok(())
}

// Adds the counters that change in a step of the choice; an instruction changes none.
fn add_counters_in(
    alloc: Global,
    text: &mut Vec<u8>,
    choice: &Choice,
    board: &Board,
    before_step: &BeforeStep,
    before: &Counts,
    after: &Counts,
) -> Result<(), NoMemory>
    requires { counts_state after.now ≡ counts_in (seen ⟦<dyn Device as Device>⟧ board.now) }
    ensures { OnOk result (Gained (AreMembers (counters_in (choice_state choice.now) before_step.now
        (counts_state before.now) (seen ⟦<dyn Device as Device>⟧ board.now))) text.old.items text.new.items) }
{
    if is_instruction(before_step, board.output()) {
        return Ok(());
    }
    add_counters(alloc, text, choice, board.time(), before, after)
}

// Adds all counters after another step, if the next one is the first of the choice.
fn add_counters_outside(
    alloc: Global,
    text: &mut Vec<u8>,
    choice: &Choice,
    board: &Board,
    before_step: &BeforeStep,
    after: &Counts,
) -> Result<(), NoMemory>
    requires step { before_step.now.step + 1 < 2 ^ 64 }
    requires after { counts_state after.now ≡ counts_in (seen ⟦<dyn Device as Device>⟧ board.now) }
    ensures { OnOk result (Gained (AreMembers (counters_outside (choice_state choice.now) before_step.now
        (seen ⟦<dyn Device as Device>⟧ board.now))) text.old.items text.new.items) }
{
    if choice.has_step(before_step.step + 1) {
        return add_all(alloc, text, choice, board.time(), after);
    }
    Ok(())
}

/// Adds the counters after a step.
pub(crate) fn add_step_counters(
    alloc: Global,
    text: &mut Vec<u8>,
    choice: &Choice,
    board: &Board,
    before_step: &BeforeStep,
    before: &Counts,
    after: &Counts,
) -> Result<(), NoMemory>
    requires step { before_step.now.step + 1 < 2 ^ 64 }
    requires after { counts_state after.now ≡ counts_in (seen ⟦<dyn Device as Device>⟧ board.now) }
    ensures { OnOk result (Gained (AreMembers (step_counters (choice_state choice.now) before_step.now
        (counts_state before.now) (seen ⟦<dyn Device as Device>⟧ board.now))) text.old.items text.new.items) }
{
    if choice.has_step(before_step.step) {
        return add_counters_in(alloc, text, choice, board, before_step, before, after);
    }
    add_counters_outside(alloc, text, choice, board, before_step, after)
}
