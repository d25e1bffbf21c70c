//! Objects of the trace-event format.

ghost use Rattle.std.specs.Prelude.{◌≡◌, ◌∷◌, ◌++◌, [], IfOk, OnOk, codes};
ghost use Rattle.std.specs.Fmt.{decimal};
ghost use Rattle.serde_json.specs.View.{view};
ghost use Rattle.trace_state.specs.Held.{members_in};
ghost use Rattle.trace_state.specs.Json.{number_of, object_of, with_all};
ghost use Rattle.trace_text.specs.Changes.{awaited_text};
ghost use Rattle.trace_json.specs.Chrome.{closing_data, counter_data, detail_data, ending_args, finish_data, flow_members, instant_data, instant_members, look_data, messages_data, place_members, ready_data, routine_data, span_data, span_name as span_name_lem, start_data, thread_args, thread_data, thread_of as thread_of_lem, times_members, waiting_name};

use crate::happenings::{add_happening, event_word};
use crate::members::EndedWait;
use board_changes::{Awaited, Look, Span, Standing};
use board_trace::{Happening, Subject, subject_of};
use serde_json::Value;
use std::alloc::{AllocError, Global};
use trace_state::{Members, time_shown, wait_value};
use trace_text::{Moment, add, add_awaited, add_decimal};
use wind_base::NoMemory;

// The process of all threads.
const PROCESS: u64 = 1;

// The thread of a subject: a task's is its id.
fn thread_of(who: Subject) -> u32
    ensures { result ≡ thread_of_lem who }
{
    match who {
        Subject::Board | Subject::Interrupt => 0,
        Subject::Task(id) => id,
    }
}

// Adds the phase of an object, its name, and its process and thread.
fn add_place(members: &mut Members, phase: &str, name: &str, thread: u32) -> Result<(), AllocError>
    ensures { OnOk result (members_in members.new
        ≡ with_all (place_members phase.now name.now thread) (members_in members.old)) }
{
    members.put_word("ph", phase)?;
    members.put_word("name", name)?;
    members.put_number("pid", PROCESS)?;
    members.put_number("tid", u64::from(thread))
}

// The arguments of a name.
fn name_value(alloc: Global, name: &[u8]) -> Result<Value, AllocError>
    ensures { IfOk result (λ v. view v ≡ thread_args name.now) }
{
    let mut members = Members::new(alloc);
    members.put_text("name", name)?;
    Ok(members.finish())
}

/// The name of a thread.
#[tactic(auto, unfolding(crate::specs::Chrome::thread_data))]
pub(crate) fn thread_value(alloc: Global, thread: u32, name: &[u8]) -> Result<Value, AllocError>
    ensures { IfOk result (λ v. view v ≡ thread_data thread name.now) }
{
    let mut members = Members::new(alloc);
    add_place(&mut members, "M", "thread_name", thread)?;
    let args = name_value(alloc, name)?;
    members.put("args", args)?;
    Ok(members.finish())
}

// Adds that a task waits, and for what.
fn add_waiting(text: &mut Vec<u8>, object: &Option<Awaited>) -> Result<(), NoMemory>
    ensures { OnOk result (text.new.items ≡ text.old.items ++ waiting_name object.now) }
{
    let Some(object) = object else {
        return add(text, b"waiting");
    };
    add(text, b"waiting for ")?;
    add_awaited(text, *object)
}

// Adds the name of a span.
fn add_span_name(text: &mut Vec<u8>, look: &Look) -> Result<(), NoMemory>
    ensures { OnOk result (text.new.items ≡ text.old.items ++ span_name_lem look.now.standing look.now.object) }
{
    match look.standing {
        Standing::Running => add(text, b"running"),
        Standing::Ready => add(text, b"ready"),
        Standing::Waiting => add_waiting(text, &look.object),
        Standing::Sleeping => add(text, b"sleeping"),
        Standing::Suspended => add(text, b"suspended"),
    }
}

// The name of a span.
fn span_name(alloc: Global, look: &Look) -> Result<Vec<u8>, NoMemory>
    ensures { IfOk result (λ name. name.items ≡ span_name_lem look.now.standing look.now.object) }
{
    let mut name = Vec::new(alloc);
    add_span_name(&mut name, look)?;
    Ok(name)
}

// The name of a flow: what a task waited for.
fn flow_name(alloc: Global, object: Awaited) -> Result<Vec<u8>, NoMemory>
    ensures { IfOk result (λ name. name.items ≡ awaited_text object) }
{
    let mut name = Vec::new(alloc);
    add_awaited(&mut name, object)?;
    Ok(name)
}

// The name of the counter of a queue's messages.
fn queue_name(alloc: Global, queue: u32) -> Result<Vec<u8>, NoMemory>
    ensures { IfOk result (λ name. name.items ≡ codes "queue " ++ decimal queue) }
{
    let mut name = Vec::new(alloc);
    add(&mut name, b"queue ")?;
    add_decimal(&mut name, u64::from(queue))?;
    Ok(name)
}

// Adds the same as `add_place` for a name that is made. Names are ASCII.
fn add_named_place(
    members: &mut Members,
    phase: &str,
    name: &[u8],
    thread: u32,
) -> Result<(), NoMemory>
    ensures { OnOk result (members_in members.new
        ≡ with_all (place_members phase.now name.now thread) (members_in members.old)) }
{
    let Ok(name) = str::from_utf8(name) else {
        return Err(NoMemory);
    };
    add_place(members, phase, name, thread)?;
    Ok(())
}

// What a task waits for, and whether its priority is inherited.
fn look_value(alloc: Global, look: &Look) -> Result<Value, AllocError>
    ensures { IfOk result (λ v. view v ≡ look_data look.now) }
{
    let mut members = Members::new(alloc);
    let wait = wait_value(alloc, &look.object)?;
    members.put("wait", wait)?;
    members.put_flag("inherits", look.inherits)?;
    Ok(members.finish())
}

// Adds from when a span is, and how long.
fn add_times(members: &mut Members, from: u128, to: u128) -> Result<(), AllocError>
    ensures { OnOk result (members_in members.new ≡ with_all (times_members from to) (members_in members.old)) }
{
    members.put_number("ts", time_shown(from))?;
    members.put_number("dur", time_shown(to.saturating_sub(from)))
}

/// A span of a task.
#[tactic(auto, unfolding(crate::specs::Chrome::span_data))]
pub(crate) fn span_value(alloc: Global, span: &Span) -> Result<Value, NoMemory>
    ensures { IfOk result (λ v. view v ≡ span_data span.now) }
{
    let mut members = Members::new(alloc);
    let name = span_name(alloc, &span.look)?;
    add_named_place(&mut members, "X", &name, span.who.get())?;
    add_times(&mut members, span.from, span.to)?;
    let args = look_value(alloc, &span.look)?;
    members.put("args", args)?;
    Ok(members.finish())
}

/// A span in which an interrupt routine is active.
#[tactic(auto, unfolding(crate::specs::Chrome::routine_data))]
pub(crate) fn routine_value(alloc: Global, from: u128, to: u128) -> Result<Value, AllocError>
    ensures { IfOk result (λ v. view v ≡ routine_data from to) }
{
    let mut members = Members::new(alloc);
    add_place(&mut members, "X", "routine", 0)?;
    add_times(&mut members, from, to)?;
    Ok(members.finish())
}

// Adds how far an instant reaches, and its time.
fn add_instant_members(members: &mut Members, scope: &str, time: u128) -> Result<(), AllocError>
    ensures { OnOk result (members_in members.new
        ≡ with_all (instant_members scope.now time) (members_in members.old)) }
{
    members.put_word("s", scope)?;
    members.put_number("ts", time_shown(time))
}

// The number of a step, and what else is told of a happening in it.
fn detail_value(alloc: Global, step: u64, happening: &Happening) -> Result<Value, AllocError>
    ensures { IfOk result (λ v. view v ≡ detail_data step happening.now) }
{
    let mut members = Members::new(alloc);
    members.put_number("step", step)?;
    add_happening(alloc, &mut members, happening)?;
    Ok(members.finish())
}

/// A happening in the step of this moment, as an instant.
#[tactic(auto, unfolding(crate::specs::Chrome::instant_data))]
pub(crate) fn instant_value(
    alloc: Global,
    at: Moment,
    happening: &Happening,
) -> Result<Value, AllocError>
    ensures { IfOk result (λ v. view v ≡ instant_data at.time at.step happening.now) }
{
    let mut members = Members::new(alloc);
    let thread = thread_of(subject_of(happening));
    add_place(&mut members, "i", event_word(happening), thread)?;
    add_instant_members(&mut members, "t", at.time)?;
    let args = detail_value(alloc, at.step, happening)?;
    members.put("args", args)?;
    Ok(members.finish())
}

// Adds the number of a flow, and the time at one of its ends.
fn add_flow_members(members: &mut Members, number: u64, time: u128) -> Result<(), AllocError>
    ensures { OnOk result (members_in members.new ≡ with_all (flow_members number time) (members_in members.old)) }
{
    members.put_word("cat", "wait")?;
    members.put_number("id", number)?;
    members.put_number("ts", time_shown(time))
}

/// The beginning of a flow at this time, with whoever ends the wait.
#[tactic(auto, unfolding(crate::specs::Chrome::start_data))]
pub(crate) fn start_value(
    alloc: Global,
    number: u64,
    time: u128,
    object: Awaited,
    giver: Subject,
) -> Result<Value, NoMemory>
    ensures { IfOk result (λ v. view v ≡ start_data number time object giver) }
{
    let mut members = Members::new(alloc);
    let name = flow_name(alloc, object)?;
    add_named_place(&mut members, "s", &name, thread_of(giver))?;
    add_flow_members(&mut members, number, time)?;
    Ok(members.finish())
}

/// The end of a flow at this time, with the task whose wait ends.
#[tactic(auto, unfolding(crate::specs::Chrome::finish_data))]
pub(crate) fn finish_value(
    alloc: Global,
    number: u64,
    time: u128,
    wait: EndedWait,
) -> Result<Value, NoMemory>
    ensures { IfOk result (λ v. view v ≡ finish_data number time wait.object wait.waiter) }
{
    let mut members = Members::new(alloc);
    let name = flow_name(alloc, wait.object)?;
    add_named_place(&mut members, "f", &name, wait.waiter.get())?;
    add_flow_members(&mut members, number, time)?;
    members.put_word("bp", "e")?;
    Ok(members.finish())
}

// The arguments of a counter: the number of what it counts.
fn number_value(alloc: Global, what: &str, number: u64) -> Result<Value, AllocError>
    ensures { IfOk result (λ v. view v ≡ object_of ((what.now, number_of number) ∷ [])) }
{
    let mut members = Members::new(alloc);
    members.put_number(what, number)?;
    Ok(members.finish())
}

// A counter.
fn counter_value(
    alloc: Global,
    name: &[u8],
    time: u128,
    what: &str,
    number: u64,
) -> Result<Value, NoMemory>
    ensures { IfOk result (λ v. view v ≡ counter_data name.now time what.now number) }
{
    let mut members = Members::new(alloc);
    add_named_place(&mut members, "C", name, 0)?;
    members.put_number("ts", time_shown(time))?;
    let args = number_value(alloc, what, number)?;
    members.put("args", args)?;
    Ok(members.finish())
}

/// The counter of ready tasks.
#[tactic(auto, unfolding(crate::specs::Chrome::ready_data))]
pub(crate) fn ready_value(alloc: Global, time: u128, number: u64) -> Result<Value, NoMemory>
    ensures { IfOk result (λ v. view v ≡ ready_data time number) }
{
    counter_value(alloc, b"ready", time, "tasks", number)
}

/// The counter of a queue's messages.
#[tactic(auto, unfolding(crate::specs::Chrome::messages_data))]
pub(crate) fn messages_value(
    alloc: Global,
    time: u128,
    queue: u32,
    number: u32,
) -> Result<Value, NoMemory>
    ensures { IfOk result (λ v. view v ≡ messages_data time queue number) }
{
    let name = queue_name(alloc, queue)?;
    counter_value(alloc, &name, time, "messages", u64::from(number))
}

// After which step a run ended, and how.
fn ending_value(alloc: Global, step: u64, how: &[u8]) -> Result<Value, AllocError>
    ensures { IfOk result (λ v. view v ≡ ending_args step how.now) }
{
    let mut members = Members::new(alloc);
    members.put_number("step", step)?;
    members.put_text("how", how)?;
    Ok(members.finish())
}

/// The end of a run.
#[tactic(auto, unfolding(crate::specs::Chrome::closing_data))]
pub(crate) fn closing_value(alloc: Global, at: Moment, how: &[u8]) -> Result<Value, AllocError>
    ensures { IfOk result (λ v. view v ≡ closing_data at.time at.step how.now) }
{
    let mut members = Members::new(alloc);
    add_place(&mut members, "i", "end", 0)?;
    add_instant_members(&mut members, "g", at.time)?;
    let args = ending_value(alloc, at.step, how)?;
    members.put("args", args)?;
    Ok(members.finish())
}
