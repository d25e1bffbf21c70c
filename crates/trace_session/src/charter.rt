//! The objects of the trace-event format that a trace makes of steps.

ghost use Rattle.std.specs.Prelude.{◌≡◌, ◌+◌, ◌<◌, ◌++◌, ◌^◌, ℕ, List, None, Some, OnOk, IfOk};
ghost use Rattle.std.specs.List.{flat_map};
ghost use Rattle.wind_machine.specs.LiveLoadingSaid.{FileSaid};
ghost use Rattle.wind_machine.specs.{State.State, Replies.step_reply};
ghost use Rattle.wind_session.specs.BoardPlayerSeen.{last_reply, seen};
ghost use Rattle.board_trace.specs.Before.{before_step as before_step_lem};
ghost use Rattle.board_trace.specs.Snapshots.{snapshot_of};
ghost use Rattle.board_trace.specs.Subjects.{subject_actor};
ghost use Rattle.board_trace.specs.Views.{snapshot_state};
ghost use Rattle.trace_text.specs.Forms.{Gained};
ghost use Rattle.trace_json.specs.Chrome.{AreMembers, TraceObject};
ghost use Rattle.trace_session.specs.Choice.{choice_state};
ghost use Rattle.trace_session.specs.Chrome.{BeginsList, IsList, IsReadyToChart, chart_by, charted, chosen_wait as chosen_wait_lem, first_objects, going_on, last_object, left_objects, level_by as level_by_lem, level_objects, line_objects, numbered, routine_objects, span_objects, step_flows, step_number, step_objects, tells_level as tells_level_lem, tells_span as tells_span_lem, wait_in as wait_in_lem, wait_objects, wait_of as wait_of_lem};
ghost use Rattle.trace_session.specs.Counters.{counted, queue_counts, ready_in as ready_in_lem, step_counters};
ghost use Rattle.trace_session.specs.Spans.{first_spans, looked_by};
ghost use Rattle.trace_session.specs.Steps.{line_of};

use crate::choice::{Choice, Kind};
use crate::counters::{add_first_counters, add_step_counters};
use crate::numbers::{Counts, QueueCount, QueueReader, ready_in};
use crate::part_spans::{look, opening};
use crate::reader::StepReader;
use crate::shown::kind_of_standing;
use crate::tracer::how;
use board_changes::{Change, Span, Spans, TaskView};
use board_trace::{BeforeStep, Happening, Snapshot, Subject, subject_name, subject_of};
use kernel_world::Actor;
use std::alloc::Global;
use trace_json::{
    EndedWait, Flow, add_flow, add_instant, add_opening, add_routine, add_span, add_spawned,
    close_list, open_list,
};
use trace_text::Moment;
use wind_base::NoMemory;
use wind_outside::Device;
use wind_session::{Board, RunEnd};

/// What is kept of a run for its objects.
#[derive(Drop)]
pub(crate) struct Charter<'a> {
    alloc: Global,
    /// What of the run is told.
    pub(crate) choice: &'a Choice,
    /// What reads the next step.
    pub(crate) reader: StepReader,
    /// What counts the messages of queues.
    pub(crate) queues: QueueReader,
    /// The spans of the tasks.
    pub(crate) spans: Spans,
    /// Since when an interrupt routine is active, in board time.
    pub(crate) level: Option<u128>,
    /// The number of the last flow.
    pub(crate) flows: u64,
    /// The text of the objects that were not put yet.
    pub(crate) text: Vec<u8>,
}

// A span is told: its task is chosen, and the kind of what the task did.
fn tells_span(choice: &Choice, span: &Span) -> bool
    ensures { result ≡ tells_span_lem (choice_state choice.now) span.now }
{
    choice.has_subject(Subject::Task(span.who.get()))
        && choice.has_kind(kind_of_standing(span.look.standing))
}

// Adds a span, if it is told.
fn add_told(alloc: Global, text: &mut Vec<u8>, choice: &Choice, span: &Span) -> Result<(), NoMemory>
    ensures { OnOk result (Gained (AreMembers (span_objects (choice_state choice.now) span.now))
        text.old.items text.new.items) }
{
    if tells_span(choice, span) {
        return add_span(alloc, text, span);
    }
    Ok(())
}

// Adds those of these spans that are told.
fn add_spans(
    alloc: Global,
    text: &mut Vec<u8>,
    choice: &Choice,
    spans: &[Span],
) -> Result<(), NoMemory>
    ensures { OnOk result (Gained (AreMembers (flat_map (span_objects (choice_state choice.now)) spans.now))
        text.old.items text.new.items) }
{
    for span in spans {
        add_told(alloc, text, choice, span)?;
    }
    Ok(())
}

// Adds the objects of a line.
fn add_line(
    alloc: Global,
    text: &mut Vec<u8>,
    choice: &Choice,
    before_step: &BeforeStep,
    name: &[u8],
    happening: &Happening,
) -> Result<(), NoMemory>
    ensures { OnOk result (Gained (AreMembers (line_objects (choice_state choice.now) (record {
      time = before_step.now.time;
      step = before_step.now.step;
      name = name.now;
      what = happening.now;
    }))) text.old.items text.new.items) }
{
    add_spawned(alloc, text, happening, name)?;
    let at = Moment {
        time: before_step.time,
        step: before_step.step,
    };
    if choice.has(before_step.step, happening) {
        return add_instant(alloc, text, at, happening);
    }
    Ok(())
}

// Adds the objects of the lines of a step.
fn add_lines(
    alloc: Global,
    text: &mut Vec<u8>,
    choice: &Choice,
    list: &[Happening],
    before_step: &BeforeStep,
    before: &Snapshot,
    after: &Snapshot,
) -> Result<(), NoMemory>
    ensures { OnOk result (Gained (AreMembers (flat_map (λ h. line_objects (choice_state choice.now)
        (line_of before_step.now (snapshot_state before.now) (snapshot_state after.now) h)) list.now))
        text.old.items text.new.items) }
{
    for happening in list {
        let name = subject_name(before, after, happening);
        add_line(alloc, text, choice, before_step, name, happening)?;
    }
    Ok(())
}

// Since when an interrupt routine is active, if the next step is one of the choice.
fn level_by(choice: &Choice, since: Option<u128>, board: &Board) -> Option<u128>
    requires { (seen ⟦<dyn Device as Device>⟧ board.now).steps + 1 < 2 ^ 64 }
    ensures { result ≡ level_by_lem (choice_state choice.now) since (seen ⟦<dyn Device as Device>⟧ board.now) }
{
    if !choice.has_step(board.steps() + 1) {
        return None;
    }
    if !board.world().watch.active() {
        return None;
    }
    Some(since.unwrap_or(board.time()))
}

// Interrupt routines are told.
fn tells_level(choice: &Choice) -> bool
    ensures { result ≡ tells_level_lem (choice_state choice.now) }
{
    choice.has_subject(Subject::Interrupt) && choice.has_kind(Kind::Routines)
}

// Adds the span of a routine, if it is told.
fn add_routine_told(
    alloc: Global,
    text: &mut Vec<u8>,
    choice: &Choice,
    from: u128,
    to: u128,
) -> Result<(), NoMemory>
    ensures { OnOk result (Gained (AreMembers (routine_objects (choice_state choice.now) from to))
        text.old.items text.new.items) }
{
    if from < to && tells_level(choice) {
        return add_routine(alloc, text, from, to);
    }
    Ok(())
}

// A routine was active since one time, if at all, and is now since another: adds its span if it ended.
fn add_level(
    alloc: Global,
    text: &mut Vec<u8>,
    choice: &Choice,
    since: Option<u128>,
    later: Option<u128>,
    time: u128,
) -> Result<(), NoMemory>
    ensures { OnOk result (Gained (AreMembers (level_objects (choice_state choice.now) since later time))
        text.old.items text.new.items) }
{
    match (since, later) {
        (Some(from), None) => add_routine_told(alloc, text, choice, from, time),
        _ => Ok(()),
    }
}

// The wait that a change ends.
fn wait_in(change: &Change) -> Option<EndedWait>
    ensures { result ≡ wait_in_lem change.now }
{
    match *change {
        Change::Served { who, object, .. }
        | Change::Failed { who, object, .. }
        | Change::GoesOn { who, object } => Some(EndedWait {
            waiter: who,
            object,
        }),
        _ => None,
    }
}

// The wait that ends.
fn wait_of(happening: &Happening) -> Option<EndedWait>
    ensures { result ≡ wait_of_lem happening.now }
{
    match happening {
        Happening::Changed(change) => wait_in(change),
        _ => None,
    }
}

// The same, if it is told in the step with this number.
fn chosen_wait(choice: &Choice, step: u64, happening: &Happening) -> Option<EndedWait>
    ensures { result ≡ chosen_wait_lem (choice_state choice.now) step happening.now }
{
    if choice.has(step, happening) {
        return wait_of(happening);
    }
    None
}

// Adds the flow of a wait that ends. Returns the number of the last flow.
fn add_wait(
    alloc: Global,
    text: &mut Vec<u8>,
    giver: Subject,
    wait: Option<EndedWait>,
    last: u64,
    from: u128,
    to: u128,
) -> Result<u64, NoMemory>
    ensures number { IfOk result (λ n. n ≡ numbered wait last) }
    ensures text { OnOk result (Gained (AreMembers (wait_objects giver wait last from to))
        text.old.items text.new.items) }
{
    let Some(wait) = wait else {
        return Ok(last);
    };
    let number = last.saturating_add(1);
    let flow = Flow {
        giver,
        wait,
        from,
        to,
    };
    add_flow(alloc, text, number, &flow)?;
    Ok(number)
}

// A task or the interrupt level, which makes a step.
fn giver_of(who: Actor) -> Subject
    ensures { result ≡ subject_actor who }
{
    subject_of(&Happening::Instructions { who, count: 1 })
}

// Adds the flows of a step that has been made at this time. Returns the number of the last flow.
fn add_flows(
    alloc: Global,
    text: &mut Vec<u8>,
    choice: &Choice,
    list: &[Happening],
    before_step: &BeforeStep,
    to: u128,
    last: u64,
) -> Result<u64, NoMemory>
    ensures number { IfOk result (λ n. n ≡ step_number (choice_state choice.now) before_step.now list.now last) }
    ensures text { OnOk result (Gained (AreMembers
        (step_flows (choice_state choice.now) before_step.now to list.now last)) text.old.items text.new.items) }
{
    let Some(who) = before_step.actor else {
        return Ok(last);
    };
    let giver = giver_of(who);
    let mut number = last;
    for happening in list {
        let wait = chosen_wait(choice, before_step.step, happening);
        number = add_wait(alloc, text, giver, wait, number, before_step.time, to)?;
    }
    Ok(number)
}

// The text before the first step of a board, with these tasks and the messages of its queues.
fn opening_text(
    alloc: Global,
    choice: &Choice,
    board: &Board,
    tasks: &[TaskView],
    queues: &[QueueCount],
) -> Result<Vec<u8>, NoMemory>
    requires few { (seen ⟦<dyn Device as Device>⟧ board.now).steps + 1 < 2 ^ 64 }
    requires tasks { tasks.now ≡ (snapshot_of (seen ⟦<dyn Device as Device>⟧ board.now).world).tasks }
    requires queues { queues.now ≡ queue_counts (seen ⟦<dyn Device as Device>⟧ board.now).world }
    ensures { IfOk result (λ text. BeginsList (first_objects (choice_state choice.now)
        (seen ⟦<dyn Device as Device>⟧ board.now)) text.items) }
{
    let mut text = Vec::new(alloc);
    open_list(&mut text)?;
    add_opening(alloc, &mut text, tasks)?;
    let counts = Counts {
        ready: Some(ready_in(tasks)),
        queues,
    };
    add_first_counters(alloc, &mut text, choice, board, &counts)?;
    Ok(text)
}

impl<'a> Charter<'a> {
    /// A trace of a board before its first step: the names of its tasks.
    pub(crate) fn new(
        alloc: Global,
        choice: &'a Choice,
        board: &Board,
    ) -> Result<Charter<'a>, NoMemory>
        requires { (seen ⟦<dyn Device as Device>⟧ board.now).steps + 1 < 2 ^ 64 }
        ensures choice { IfOk result (λ c. c.choice ≡ choice.entry) }
        ensures chart { IfOk result (λ c. charted c.spans c.level c.flows ≡ charted
            (first_spans (choice_state choice.now) (seen ⟦<dyn Device as Device>⟧ board.now))
            (level_by_lem (choice_state choice.now) None (seen ⟦<dyn Device as Device>⟧ board.now)) 0) }
        ensures text { IfOk result (λ c. BeginsList (first_objects (choice_state choice.now)
            (seen ⟦<dyn Device as Device>⟧ board.now)) c.text.items) }
        ensures before { IfOk result (λ c. snapshot_state c.reader.before
            ≡ snapshot_of (seen ⟦<dyn Device as Device>⟧ board.now).world) }
        ensures counts { IfOk result (λ c. c.queues.before.items
            ≡ queue_counts (seen ⟦<dyn Device as Device>⟧ board.now).world) }
    {
        let reader = StepReader::new(alloc, board)?;
        let spans = opening(alloc, choice, board, &reader.before.tasks)?;
        let level = level_by(choice, None, board);
        let queues = QueueReader::new(alloc, board)?;
        let text = opening_text(alloc, choice, board, &reader.before.tasks, &queues.before)?;
        Ok(Charter {
            alloc,
            choice,
            reader,
            queues,
            spans,
            level,
            flows: 0,
            text,
        })
    }

    // Adds the spans that end with a step.
    fn add_ended(&mut self, board: &Board, before_step: &BeforeStep) -> Result<(), NoMemory>
        requires step { before_step.now.step + 1 < 2 ^ 64 }
        requires few { (seen ⟦<dyn Device as Device>⟧ board.now).steps + 1 < 2 ^ 64 }
        requires after { snapshot_state self.old.reader.after ≡ snapshot_of (seen ⟦<dyn Device as Device>⟧ board.now).world }
        ensures text { OnOk result (Gained (AreMembers (flat_map (span_objects (choice_state self.old.choice.now))
            (looked_by (choice_state self.old.choice.now) before_step.now (going_on self.old.spans)
            (seen ⟦<dyn Device as Device>⟧ board.now)).done
            ++ level_objects (choice_state self.old.choice.now) self.old.level (level_by_lem
            (choice_state self.old.choice.now) self.old.level (seen ⟦<dyn Device as Device>⟧ board.now))
            (seen ⟦<dyn Device as Device>⟧ board.now).time)) self.old.text.items self.new.text.items) }
        ensures spans { OnOk result (self.new.spans ≡ looked_by (choice_state self.old.choice.now) before_step.now
            (going_on self.old.spans) (seen ⟦<dyn Device as Device>⟧ board.now)) }
        ensures level { OnOk result (self.new.level ≡ level_by_lem (choice_state self.old.choice.now)
            self.old.level (seen ⟦<dyn Device as Device>⟧ board.now)) }
        ensures flows { OnOk result (self.new.flows ≡ self.old.flows) }
        ensures choice { OnOk result (self.new.choice ≡ self.old.choice) }
        ensures reader { OnOk result (self.new.reader ≡ self.old.reader) }
        ensures queues { OnOk result (self.new.queues ≡ self.old.queues) }
    {
        let (alloc, choice) = (self.alloc, self.choice);
        self.spans.forget_done();
        let tasks = &self.reader.after.tasks;
        look(alloc, &mut self.spans, choice, board, before_step, tasks)?;
        add_spans(alloc, &mut self.text, choice, self.spans.done())?;
        let (since, time) = (self.level, board.time());
        self.level = level_by(choice, since, board);
        add_level(alloc, &mut self.text, choice, since, self.level, time)
    }

    // Adds the counters after a step.
    fn add_counters(&mut self, board: &Board, before_step: &BeforeStep) -> Result<(), NoMemory>
        requires step { before_step.now.step + 1 < 2 ^ 64 }
        requires after { snapshot_state self.old.reader.after ≡ snapshot_of (seen ⟦<dyn Device as Device>⟧ board.now).world }
        ensures text { OnOk result (Gained (AreMembers (step_counters (choice_state self.old.choice.now) before_step.now
            (counted (Some (ready_in_lem (snapshot_state self.old.reader.before).tasks))
            self.old.queues.before.items) (seen ⟦<dyn Device as Device>⟧ board.now)))
            self.old.text.items self.new.text.items) }
        ensures counts { OnOk result (self.new.queues.after.items
            ≡ queue_counts (seen ⟦<dyn Device as Device>⟧ board.now).world) }
        ensures chart { OnOk result (charted self.new.spans self.new.level self.new.flows
            ≡ charted self.old.spans self.old.level self.old.flows) }
        ensures choice { OnOk result (self.new.choice ≡ self.old.choice) }
        ensures reader { OnOk result (self.new.reader ≡ self.old.reader) }
    {
        let (alloc, choice) = (self.alloc, self.choice);
        self.queues.read(board)?;
        let before = Counts {
            ready: Some(ready_in(&self.reader.before.tasks)),
            queues: &self.queues.before,
        };
        let after = Counts {
            ready: Some(ready_in(&self.reader.after.tasks)),
            queues: &self.queues.after,
        };
        add_step_counters(
            alloc,
            &mut self.text,
            choice,
            board,
            before_step,
            &before,
            &after,
        )
    }

    /// A step was made: adds its objects.
    pub(crate) fn add_step(
        &mut self,
        board: &Board,
        before_step: &BeforeStep,
    ) -> Result<(), NoMemory>
        requires step { before_step.now.step + 1 < 2 ^ 64 }
        requires few { (seen ⟦<dyn Device as Device>⟧ board.now).steps + 1 < 2 ^ 64 }
        ensures text { OnOk result ((said : FileSaid) (s : State) → before_step.now ≡ before_step_lem s
            → IsReadyToChart (snapshot_state self.old.reader.before) self.old.queues.before.items s
            → last_reply board.now ≡ step_reply said s
            → Gained (AreMembers (step_objects (choice_state self.old.choice.now) said
            (charted self.old.spans self.old.level self.old.flows) s
            (seen ⟦<dyn Device as Device>⟧ board.now))) self.old.text.items self.new.text.items) }
        ensures chart { OnOk result ((said : FileSaid) (s : State) → before_step.now ≡ before_step_lem s
            → IsReadyToChart (snapshot_state self.old.reader.before) self.old.queues.before.items s
            → last_reply board.now ≡ step_reply said s
            → charted self.new.spans self.new.level self.new.flows ≡ chart_by (choice_state self.old.choice.now) said
            (charted (going_on self.old.spans) self.old.level self.old.flows) s
            (seen ⟦<dyn Device as Device>⟧ board.now)) }
        ensures choice { OnOk result (self.new.choice ≡ self.old.choice) }
        ensures before { OnOk result (snapshot_state self.new.reader.before
            ≡ snapshot_of (seen ⟦<dyn Device as Device>⟧ board.now).world) }
        ensures counts { OnOk result (self.new.queues.before.items
            ≡ queue_counts (seen ⟦<dyn Device as Device>⟧ board.now).world) }
    {
        let (alloc, choice) = (self.alloc, self.choice);
        self.reader.read(board, before_step)?;
        let reader = &self.reader;
        add_lines(
            alloc,
            &mut self.text,
            choice,
            &reader.list,
            before_step,
            &reader.before,
            &reader.after,
        )?;
        self.flows = add_flows(
            alloc,
            &mut self.text,
            choice,
            &reader.list,
            before_step,
            board.time(),
            self.flows,
        )?;
        self.add_ended(board, before_step)?;
        self.add_counters(board, before_step)?;
        self.reader.go_on();
        self.queues.go_on();
        Ok(())
    }

    /// The run has ended: adds the spans that went on, and how it ended.
    pub(crate) fn add_end(&mut self, board: &Board, end: RunEnd) -> Result<(), NoMemory>
        ensures { OnOk result ((given : List ℕ) (objects : List TraceObject) → BeginsList objects (given ++ self.old.text.items)
            → IsList (objects ++ left_objects (choice_state self.old.choice.now)
            (charted self.old.spans self.old.level self.old.flows) (seen ⟦<dyn Device as Device>⟧ board.now).time)
            (last_object end (seen ⟦<dyn Device as Device>⟧ board.now)) (given ++ self.new.text.items)) }
    {
        let (alloc, choice, time) = (self.alloc, self.choice, board.time());
        self.spans.forget_done();
        self.spans.close(time)?;
        add_spans(alloc, &mut self.text, choice, self.spans.done())?;
        add_level(alloc, &mut self.text, choice, self.level, None, time)?;
        let at = Moment {
            time,
            step: board.steps(),
        };
        close_list(alloc, &mut self.text, at, how(end))
    }
}
