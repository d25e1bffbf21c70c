//! The lines that are for the program and not for the board.

ghost use Rattle.std.specs.Prelude.{◌≡◌, ◌==◌, ◌≤◌, length, position, IfSome};
ghost use Rattle.std.specs.Option.{option_map};
ghost use Rattle.live_session.specs.DotLines.{dot_line_of, interrupt_asked as interrupt_asked_lem, interrupts_asked as interrupts_asked_lem, interrupts_of as interrupts_of_lem, is_dotted as is_dotted_lem, number_after as number_after_lem, plain_line as plain_line_lem, spaced_from as spaced_from_lem, spaced_of, text_after as text_after_lem, ticks_asked as ticks_asked_lem, ticks_of as ticks_of_lem, without_end as without_end_lem, word_len as word_len_lem};
ghost use Rattle.live_session.specs.Spaced.{spaced_seen};

use tick_file::Event;
use wind_base::decimal;
use wind_base::limits::STEPS;

// The greatest period of events, in units of board time.
const PERIOD: u64 = 1_000_000;

// The greatest number of a slot.
const SLOT: u64 = 15;

/// Events that come one period of board time apart: the first comes a period from now.
#[derive(Clone, Copy, Debug, PartialEq, Eq)]
pub struct Series {
    /// The event.
    pub event: Event,
    /// How many come.
    pub count: u64,
    /// The period in units of board time, from 1 to 1,000,000.
    pub period: u64,
}

/// What a line asks the program for.
#[derive(Clone, Copy, Debug, PartialEq, Eq)]
pub enum DotLine {
    /// `.ticks N`: this many ticks, each when nothing else is left to do.
    Ticks(u64),
    /// `.ticks N every M`, `.irqs N every M SLOT` and `.irq SLOT`: these events, whatever runs.
    Events(Series),
    /// `.run N`: this many steps.
    Run(u64),
    /// `.break`: the byte 0x03.
    Break,
    /// `.state`: what the board does.
    State,
    /// `.save`: the record is written now.
    Save,
    /// `.quit`: the session ends.
    Quit,
    /// `.help`: a list of these lines.
    Help,
    /// The line is none of these.
    Unknown,
}

/// Whether the line begins with `.`.
pub(crate) fn is_dotted(line: &[u8]) -> bool
    ensures { result ≡ is_dotted_lem line.now }
{
    match line {
        [first, ..] => *first == b'.',
        [] => false,
    }
}

// The line without its end.
fn without_end(line: &[u8]) -> &[u8]
    ensures { result.now ≡ without_end_lem line.now }
{
    match line {
        [prefix @ .., last] if *last == b'\n' => prefix,
        _ => line,
    }
}

// What follows a word, if the text begins with it.
fn text_after<'a>(text: &'a [u8], word: &[u8]) -> Option<&'a [u8]>
    ensures { option_map (λ rest. rest.now) result ≡ text_after_lem word.now text.now }
{
    if text.len() < word.len() || &text[..word.len()] != word {
        return None;
    }
    Some(&text[word.len()..])
}

// The number that follows a word, if it is at most the greatest.
fn number_after(text: &[u8], word: &[u8], greatest: u64) -> Option<u64>
    ensures value { result ≡ number_after_lem greatest word.now text.now }
    ensures within { IfSome result (λ number. number ≤ greatest) }
{
    match text_after(text, word) {
        Some(rest) => decimal(rest, greatest),
        None => None,
    }
}

// Where the first blank of a text is.
fn blank_at(text: &[u8]) -> Option<usize>
    ensures value { result ≡ position (λ byte. byte == 32) text.now }
    ensures within { IfSome result (λ at. at ≤ length text.now) }
{
    text.iter().position(|byte| *byte == b' ')
}

// How many bytes the first word of a text has. It ends before a blank.
fn word_len(text: &[u8]) -> usize
    ensures value { result ≡ word_len_lem text.now }
    ensures within { result ≤ length text.now }
{
    blank_at(text).unwrap_or(text.len())
}

// `N every M`, and what follows.
#[derive(Clone, Copy)]
struct Spaced<'a> {
    count: u64,
    period: u64,
    rest: &'a [u8],
}

// The period at the beginning of a text, after this count.
fn spaced_from(text: &[u8], count: u64) -> Option<Spaced<'_>>
    ensures { option_map spaced_seen result ≡ spaced_from_lem count text.now }
{
    let end = word_len(text);
    match decimal(&text[..end], PERIOD) {
        Some(period) if period >= 1 => Some(Spaced {
            count,
            period,
            rest: &text[end..],
        }),
        _ => None,
    }
}

// The count and the period at the beginning of a text.
fn read_spaced(text: &[u8]) -> Option<Spaced<'_>>
    ensures { option_map spaced_seen result ≡ spaced_of text.now }
{
    let end = word_len(text);
    let Some(count) = decimal(&text[..end], STEPS) else {
        return None;
    };
    match text_after(&text[end..], b" every ") {
        Some(rest) => spaced_from(rest, count),
        None => None,
    }
}

// Ticks, if nothing follows the period.
fn ticks_of(spaced: Spaced) -> Option<Series>
    ensures { result ≡ ticks_of_lem (spaced_seen spaced.entry) }
{
    if !spaced.rest.is_empty() {
        return None;
    }
    Some(Series {
        event: Event::Tick,
        count: spaced.count,
        period: spaced.period,
    })
}

// Interrupts of the slot that follows the period.
fn interrupts_of(spaced: Spaced) -> Option<Series>
    ensures { result ≡ interrupts_of_lem (spaced_seen spaced.entry) }
{
    match number_after(spaced.rest, b" ", SLOT) {
        Some(slot) => Some(Series {
            event: Event::Irq(slot as u32),
            count: spaced.count,
            period: spaced.period,
        }),
        None => None,
    }
}

// The ticks that a line asks for.
fn ticks_asked(line: &[u8]) -> Option<Series>
    ensures { result ≡ ticks_asked_lem line.now }
{
    match text_after(line, b".ticks ") {
        Some(text) => ticks_of(read_spaced(text)?),
        None => None,
    }
}

// The interrupts that a line asks for.
fn interrupts_asked(line: &[u8]) -> Option<Series>
    ensures { result ≡ interrupts_asked_lem line.now }
{
    match text_after(line, b".irqs ") {
        Some(text) => interrupts_of(read_spaced(text)?),
        None => None,
    }
}

// The interrupt that a line asks for.
fn interrupt_asked(line: &[u8]) -> Option<Series>
    ensures { result ≡ interrupt_asked_lem line.now }
{
    match number_after(line, b".irq ", SLOT) {
        Some(slot) => Some(Series {
            event: Event::Irq(slot as u32),
            count: 1,
            period: 1,
        }),
        None => None,
    }
}

// What a line asks for that has one word.
fn plain_line(line: &[u8]) -> DotLine
    ensures { result ≡ plain_line_lem line.now }
{
    if line == b".break".as_slice() {
        return DotLine::Break;
    }
    if line == b".state".as_slice() {
        return DotLine::State;
    }
    if line == b".save".as_slice() {
        return DotLine::Save;
    }
    if line == b".quit".as_slice() {
        return DotLine::Quit;
    }
    if line == b".help".as_slice() {
        return DotLine::Help;
    }
    DotLine::Unknown
}

/// What the line asks for.
pub(crate) fn dot_line(line: &[u8]) -> DotLine
    ensures { result ≡ dot_line_of line.now }
{
    let line = without_end(line);
    if let Some(ticks) = number_after(line, b".ticks ", STEPS) {
        return DotLine::Ticks(ticks);
    }
    if let Some(steps) = number_after(line, b".run ", STEPS) {
        return DotLine::Run(steps);
    }
    if let Some(series) = ticks_asked(line) {
        return DotLine::Events(series);
    }
    if let Some(series) = interrupts_asked(line) {
        return DotLine::Events(series);
    }
    if let Some(series) = interrupt_asked(line) {
        return DotLine::Events(series);
    }
    plain_line(line)
}
