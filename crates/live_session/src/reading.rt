//! The texts of a record from which a session goes on, as far as a crash has left them whole.

ghost use Rattle.std.specs.Prelude.{◌≡◌, ◌≢◌, ◌↔◌, ◌≤◌, ◌∷◌, ◌++◌, [], ℕ, List, None, Err, IsTrue, IfOk, IfErr, OnOk, MatchOption, length};
ghost use Rattle.wind_base.specs.Limits.{greatest_word};
ghost use Rattle.tick_file.specs.declared.event.Event.{Event};
ghost use Rattle.tick_file.specs.Lines.{first_bad_line};
ghost use Rattle.tick_file.specs.Schedule.{timetable_of};
ghost use Rattle.tick_file.specs.Writing.{recorded, AreRecordable, IsInRange};
ghost use Rattle.wind_machine.specs.Extending.{bytes_asked as bytes_asked_lem};
ghost use Rattle.live_session.specs.Cutting.{served as served_lem, whole_lines as whole_lines_lem, IsCut, IsServed, IsTextOf};
ghost use Rattle.live_session.specs.declared.reading.NotContinued.TheVariants as reasons;

use crate::record::{GREATEST_TIME, line_of};
use std::alloc::{AllocError, Global};
use tick_file::{Event, Schedule, TickErr, read_ticks, writing_law};
use wind_base::limits::{CHUNK_BYTES, SLOTS};

/// A file of a record.
#[derive(Clone, Copy, Debug, PartialEq, Eq)]
pub(crate) enum RecordFile {
    /// The bytes that were sent to the console.
    Console,
    /// The tick file.
    Ticks,
    /// The words of the replay.
    Command,
}

/// Why a session doesn't go on from a record.
#[derive(Clone, Copy, Debug, PartialEq, Eq)]
pub(crate) enum NotContinued {
    /// This file isn't there, or it isn't that of a record.
    Foreign(RecordFile),
    /// Reading failed.
    Failed,
    /// Host memory ran out.
    NoMemory,
}

impl From<AllocError> for NotContinued {
    ghost use Rattle.std.specs.Prelude.{◌≡◌};
    ghost use Rattle.live_session.specs.declared.reading.NotContinued.TheVariants as reasons;

    ghost from_gives = { λ _ e. e ≡ reasons.NoMemory };

    fn from(_error: AllocError) -> NotContinued {
        NotContinued::NoMemory
    }
}

/// What follows these bytes in a text that begins with them.
pub(crate) fn after_text<'a>(text: &'a [u8], front: &[u8]) -> Option<&'a [u8]>
    ensures { MatchOption result ((rest : List ℕ) → text.now ≢ front.now ++ rest) (λ rest. text.now ≡ front.now ++ rest.now) }
{
    text.strip_prefix(front)
}

// A text up to its last 0x0A.
fn whole_lines(text: &[u8]) -> &[u8]
    ensures { result.now ≡ whole_lines_lem text.now }
{
    let mut rest = text;
    while let Some((last, front)) = rest.split_last() {
        if *last == b'\n' {
            return rest;
        }
        rest = front;
    }
    rest
}

// Whether a line can ask for an event.
fn is_in_range(event: Event) -> bool
    ensures { IsTrue result ↔ IsInRange event }
{
    match event {
        Event::Tick => true,
        Event::Rx(bytes) => 1 <= bytes && bytes <= CHUNK_BYTES as u32,
        Event::Irq(slot) => slot < SLOTS as u32,
    }
}

// Whether an event can be recorded at a time, after one at the least time.
fn is_recordable(least: u64, time: u64, event: Event) -> bool
    ensures { IsTrue result ↔ (least ≤ time) × (time ≤ greatest_word) × IsInRange event }
{
    least <= time && time <= GREATEST_TIME && is_in_range(event)
}

// The schedule of these lines.
fn schedule_of(alloc: Global, lines: &[u8]) -> Result<Schedule, NotContinued>
    ensures value { IfOk result (λ schedule. schedule ≡ timetable_of lines.now) }
    ensures bad { IfErr result (λ reason. reason ≢ reasons.NoMemory → first_bad_line lines.now ≢ None) }
    ensures known { result ≢ Err reasons.Failed }
{
    match read_ticks(alloc, lines) {
        Ok(schedule) => Ok(schedule),
        Err(TickErr::BadLine(_)) => Err(NotContinued::Foreign(RecordFile::Ticks)),
        Err(TickErr::NoMemory) => Err(NotContinued::NoMemory),
    }
}

// Adds an event at the end of a list.
fn push_event(events: &mut Vec<(u64, Event)>, time: u64, event: Event) -> Result<(), AllocError>
    ensures { OnOk result (events.new.items ≡ events.old.items ++ (time, event) ∷ []) }
{
    events.push((time, event))?;
    Ok(())
}

// Adds bytes at the end of a text.
fn push_bytes(text: &mut Vec<u8>, bytes: &[u8]) -> Result<(), AllocError>
    ensures { OnOk result (text.new.items ≡ text.old.items ++ bytes.now) }
{
    text.extend_from_slice(bytes)
}

// The events of these lines, if they are the lines of events later than 0.
fn events_of(alloc: Global, lines: &[u8]) -> Result<Vec<(u64, Event)>, NotContinued>
    ensures ok { IfOk result (λ events. (lines.now ≡ recorded events.items) × AreRecordable 1 events.items) }
    ensures err { IfErr result (λ reason. reason ≢ reasons.NoMemory
        → (xs : List (ℕ × Event)) → AreRecordable 1 xs → lines.now ≢ recorded xs) }
    ensures known { result ≢ Err reasons.Failed }
{
    writing_law();
    let foreign = NotContinued::Foreign(RecordFile::Ticks);
    let mut schedule = schedule_of(alloc, lines)?;
    let mut events = Vec::new(alloc);
    let mut least = 1;
    let mut rest = lines;
    while let Some((time, event)) = schedule.next() {
        if !is_recordable(least, time, event) {
            return Err(foreign);
        }
        let line = line_of(alloc, time, event)?;
        let Some(after) = after_text(rest, &line) else {
            return Err(foreign);
        };
        push_event(&mut events, time, event)?;
        least = time;
        rest = after;
        schedule.advance();
    }
    if rest.is_empty() {
        Ok(events)
    } else {
        Err(foreign)
    }
}

// How many bytes an event brings.
fn bytes_asked(event: Event) -> usize
    ensures { result ≡ bytes_asked_lem event }
{
    match event {
        Event::Rx(count) => (count as usize).min(CHUNK_BYTES),
        Event::Tick | Event::Irq(_) => 0,
    }
}

// The first of some events, as far as their bytes are there.
#[derive(Drop)]
struct ServedEvents {
    // the text of their lines
    ticks: Vec<u8>,
    // how many bytes they bring
    bytes: usize,
    // how many they are
    lines: usize,
    // the time of the last, or 0
    last: u64,
}

// The first event and those after it, if `left` bytes are enough for the first.
fn first_served(events: &[(u64, Event)], left: usize) -> Option<(&(u64, Event), &[(u64, Event)])>
    ensures { MatchOption result (served_lem left events.now ≡ [])
        (λ x. (events.now ≡ x.0.now ∷ x.1.now) × (bytes_asked_lem x.0.now.1 ≤ left)) }
{
    let Some((first, more)) = events.split_first() else {
        return None;
    };
    if bytes_asked(first.1) <= left {
        Some((first, more))
    } else {
        None
    }
}

// The first of these events, as far as this many bytes last.
fn served(alloc: Global, events: &[(u64, Event)], len: usize) -> Result<ServedEvents, AllocError>
    ensures { IfOk result (λ s. IsServed len events.now s.ticks.items s.bytes s.lines s.last) }
{
    writing_law();
    let mut ticks = Vec::new(alloc);
    let mut bytes = 0;
    let mut last = 0;
    let mut rest = events;
    while let Some((first, more)) = first_served(rest, len - bytes) {
        let (time, event) = *first;
        let line = line_of(alloc, time, event)?;
        push_bytes(&mut ticks, &line)?;
        bytes += bytes_asked(event);
        last = time;
        rest = more;
    }
    let lines = events.len() - rest.len();
    Ok(ServedEvents {
        ticks,
        bytes,
        lines,
        last,
    })
}

/// The texts of a record, the number of lines of its tick file, and the time in the last line, or 0.
#[derive(Drop)]
pub(crate) struct Texts {
    pub(crate) console: Vec<u8>,
    pub(crate) ticks: Vec<u8>,
    pub(crate) lines: u64,
    pub(crate) last: u64,
}

/// What a crash has left whole of these texts of a record.
pub(crate) fn cut(alloc: Global, console: &[u8], ticks: &[u8]) -> Result<Texts, NotContinued>
    ensures ok { IfOk result (λ t. IsCut console.now ticks.now t.console.items t.ticks.items
        × IsTextOf t.console.items t.ticks.items t.lines t.last) }
    ensures short { IfOk result (λ t. (length t.console.items ≤ length console.now) × (length t.ticks.items ≤ length ticks.now)) }
    ensures err { IfErr result (λ reason. reason ≢ reasons.NoMemory
        → (kept_console kept_ticks : List ℕ) → IsCut console.now ticks.now kept_console kept_ticks → ⊥) }
    ensures known { result ≢ Err reasons.Failed }
{
    writing_law();
    let events = events_of(alloc, whole_lines(ticks))?;
    let served = served(alloc, &events, console.len())?;
    let unserved = events.len() - served.lines;
    if unserved > 1 {
        return Err(NotContinued::Foreign(RecordFile::Ticks));
    }
    let console = Vec::from_slice(alloc, &console[..served.bytes])?;
    Ok(Texts {
        console,
        ticks: served.ticks,
        lines: served.lines as u64,
        last: served.last,
    })
}
