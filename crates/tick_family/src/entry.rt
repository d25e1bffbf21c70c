//! One line of a family.

ghost use Rattle.std.specs.Prelude.{◌≡◌, IfOk};
ghost use Rattle.tick_family.specs.Entries.{plain as plain_lem, with_first as with_first_lem, ranged as ranged_lem, shifting as shifting_lem, beyond as beyond_lem, content_of};

use crate::fault::Fault;
use crate::times::{Times, before_byte, one_time, times_named};
use source_text::Blanks;
use std::alloc::{AllocError, Global};
use tick_file::{Event, Rule, Said, said};

// What parts the words of a line.
const BLANKS: Blanks = Blanks::SpacesAndTabs;

/// What a line asks for.
#[derive(Clone, Copy)]
pub enum Entry {
    /// One event, at one of these times.
    Once(Times, Event),
    /// Events one period apart, the first after one period: the period, the number of events, and
    /// the event.
    Every(u64, u64, Event),
    /// The events of all lines below come later by one of these times. This ends the shift above.
    Shift(Times),
}

/// What a line has.
#[derive(Clone, Copy)]
pub enum Content {
    /// The line is blank or a comment.
    Nothing,
    /// The line has this entry.
    Asks(Entry),
    /// The line is bad.
    Bad(Fault),
}

// The entry of a rule, which has no range.
fn plain(rule: Rule) -> Entry
    ensures { result ≡ plain_lem rule }
{
    match rule {
        Rule::At(time, event) => Entry::Once(one_time(time), event),
        Rule::Every(period, count, event) => Entry::Every(period, count, event),
    }
}

// The line with the first number of its range in the place of the range.
fn with_first(alloc: Global, line: &[u8]) -> Result<Vec<u8>, AllocError>
    ensures { IfOk result (λ text. text.items ≡ with_first_lem line.now) }
{
    let rest = BLANKS.after_word(line);
    let range = BLANKS.first_word(rest);
    let mut text = Vec::from_slice(alloc, &line[..line.len() - rest.len()])?;
    text.extend_from_slice(before_byte(b'.', range))?;
    text.extend_from_slice(&rest[range.len()..])?;
    Ok(text)
}

// The content of a line whose second word names these times, if the line says this with the first
// of them in their place.
fn ranged(said: Said, times: Result<Times, Fault>) -> Content
    ensures { result ≡ ranged_lem said times }
{
    match (said, times) {
        (Said::Says(Rule::At(_, event)), Ok(times)) => Content::Asks(Entry::Once(times, event)),
        (Said::Says(Rule::At(..)), Err(fault)) => Content::Bad(fault),
        _ => Content::Bad(Fault::NotUnderstood),
    }
}

// The content of a line `shift` that names these times.
fn shifting(times: Result<Times, Fault>) -> Content
    ensures { result ≡ shifting_lem times }
{
    match times {
        Ok(times) => Content::Asks(Entry::Shift(times)),
        Err(fault) => Content::Bad(fault),
    }
}

// The content of a line that isn't one of a tick file.
fn beyond(alloc: Global, line: &[u8]) -> Result<Content, AllocError>
    ensures { IfOk result (λ content. content ≡ beyond_lem line.now) }
{
    let rest = BLANKS.after_word(line);
    if BLANKS.first_word(line) == b"shift".as_slice() {
        return Ok(shifting(times_named(rest)));
    }
    let text = with_first(alloc, line)?;
    Ok(ranged(said(&text), times_named(BLANKS.first_word(rest))))
}

/// What a line has.
#[tactic(auto, unfolding(crate::specs::Entries::content_of))]
pub(crate) fn line_content(alloc: Global, line: &[u8]) -> Result<Content, AllocError>
    ensures { IfOk result (λ content. content ≡ content_of line.now) }
{
    match said(line) {
        Said::Nothing => Ok(Content::Nothing),
        Said::Says(rule) => Ok(Content::Asks(plain(rule))),
        Said::Outside => beyond(alloc, line),
    }
}
