//! The record of a session: the bytes that were sent to its console, and a tick file with one line
//! for each event.

ghost use Rattle.std.specs.Prelude.{◌≡◌, ◌+◌, ◌<◌, ◌≤◌, ◌^◌, ◌∷◌, ◌++◌, [], max, length, Some, None, OnOk, IfOk, IfSome, IfNone};
ghost use Rattle.std.specs.Fmt.{decimal};
ghost use Rattle.wind_base.specs.Limits.{greatest_word, longest_text_file};
ghost use Rattle.wind_base.specs.OutBuf.{appended};
ghost use Rattle.tick_file.specs.Writing.{event_line};
ghost use Rattle.live_session.specs.Cutting.{IsTextOf};
ghost use Rattle.live_session.specs.Record.{IsRecord, IsWithinFile, number_text};

use crate::reading::Texts;
use itoa::Buffer;
use std::alloc::{AllocError, Global};
use tick_file::Event;
use wind_base::limits::TEXT_FILE_BYTES;
use wind_base::{NoMemory, OutBuf};

// The greatest time of a tick file.
pub(crate) const GREATEST_TIME: u64 = 4_294_967_295;

/// The record of a session.
#[derive(Drop)]
pub struct Record {
    /// The bytes that were sent to the console.
    pub(crate) console: OutBuf,
    /// The text of the tick file.
    pub(crate) ticks: OutBuf,
    /// How many lines it has.
    pub(crate) lines: u64,
    /// The time in its last line, or 0.
    pub(crate) last: u64,
}

/// Why an event can't be recorded.
#[derive(Clone, Copy, Debug, PartialEq, Eq)]
pub enum Refusal {
    /// Its time would be over 4,294,967,295.
    Time,
    /// The console file would have more than 1 MiB.
    Console,
    /// The tick file would have more than 1 MiB.
    Ticks,
    /// Host memory ran out.
    NoMemory,
}

impl From<AllocError> for Refusal {
    ghost use Rattle.std.specs.Prelude.{◌≡◌};
    ghost use Rattle.live_session.specs.declared.record.Refusal.TheVariants as refusals;

    ghost from_gives = { λ _ e. e ≡ refusals.NoMemory };

    fn from(_error: AllocError) -> Refusal {
        Refusal::NoMemory
    }
}

// A text of a record, with room for all that its file can hold.
fn text_of(alloc: Global, bytes: &[u8]) -> Result<OutBuf, NoMemory>
    requires { length bytes.now ≤ longest_text_file }
    ensures holds { IfOk result (λ text. text.bytes ≡ bytes.now) }
    ensures within { IfOk result (λ text. IsWithinFile text) }
{
    let mut text = OutBuf::reserved(alloc, TEXT_FILE_BYTES)?;
    let _ = text.put(bytes);
    Ok(text)
}

/// The record of these texts.
pub(crate) fn record_of(alloc: Global, texts: &Texts) -> Result<Record, NoMemory>
    requires console { length texts.now.console.items ≤ longest_text_file }
    requires ticks { length texts.now.ticks.items ≤ longest_text_file }
    requires texts { IsTextOf texts.now.console.items texts.now.ticks.items texts.now.lines texts.now.last }
    ensures holds { IfOk result (λ r. (r.console.bytes ≡ texts.now.console.items) × (r.ticks.bytes ≡ texts.now.ticks.items)
        × (r.lines ≡ texts.now.lines) × (r.last ≡ texts.now.last)) }
    ensures record { IfOk result (λ r. IsRecord r.ticks r.lines r.last) }
    ensures console { IfOk result (λ r. IsWithinFile r.console) }
{
    let console = text_of(alloc, &texts.console)?;
    let ticks = text_of(alloc, &texts.ticks)?;
    Ok(Record {
        console,
        ticks,
        lines: texts.lines,
        last: texts.last,
    })
}

/// Adds the line of an event at this time, and the bytes that it brings.
pub(crate) fn add_event(record: &mut Record, time: u64, line: &[u8], bytes: &[u8])
    requires console { length bytes.now ≤ record.old.console.room }
    requires ticks { length line.now ≤ record.old.ticks.room }
    requires few { record.old.lines + 1 < 2 ^ 64 }
    ensures console { record.new.console ≡ appended record.old.console bytes.now }
    ensures ticks { record.new.ticks ≡ appended record.old.ticks line.now }
    ensures lines { record.new.lines ≡ record.old.lines + 1 }
    ensures last { record.new.last ≡ time }
{
    let _ = record.console.put(bytes);
    let _ = record.ticks.put(line);
    record.lines += 1;
    record.last = time;
}

/// The time of an event that is due a period after a time: then, but later than board time, and not
/// before the last event. `None` if that is over 4,294,967,295.
pub(crate) fn due_time(now: u128, last: u64, from: u128, period: u64) -> Option<u64>
    ensures some { IfSome result (λ time. (time ≡ max (max (now + 1) last) (from + period)) × (time ≤ greatest_word)) }
    ensures none { IfNone result (greatest_word < max (max (now + 1) last) (from + period)) }
{
    let due = from.saturating_add(u128::from(period));
    let time = now.saturating_add(1).max(u128::from(last)).max(due);
    if time > u128::from(GREATEST_TIME) {
        return None;
    }
    Some(time as u64)
}

// Adds a word, a time and a number to a text, with a blank between each two.
fn add_words(
    text: &mut Vec<u8>,
    word: &[u8],
    time: u64,
    number: Option<u32>,
) -> Result<(), AllocError>
    ensures { OnOk result (text.new.items ≡ text.old.items ++ (word.now ++ (decimal time ++ number_text number))) }
{
    text.extend_from_slice(word)?;
    text.extend_from_slice(Buffer::new().format(time).as_bytes())?;
    if let Some(number) = number {
        text.extend_from_slice(b" ")?;
        text.extend_from_slice(Buffer::new().format(number).as_bytes())?;
    }
    Ok(())
}

/// The line of an event at a time, with its end.
pub(crate) fn line_of(alloc: Global, time: u64, event: Event) -> Result<Vec<u8>, AllocError>
    ensures { IfOk result (λ line. line.items ≡ event_line time event ++ 10 ∷ []) }
{
    let mut line = Vec::new(alloc);
    match event {
        Event::Tick => add_words(&mut line, b"tick ", time, None)?,
        Event::Rx(bytes) => add_words(&mut line, b"rx ", time, Some(bytes))?,
        Event::Irq(slot) => add_words(&mut line, b"irq ", time, Some(slot))?,
    }
    line.extend_from_slice(b"\n")?;
    Ok(line)
}
