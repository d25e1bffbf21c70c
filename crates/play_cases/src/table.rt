//! The rows of the tables.

use crate::session::{Failing, Left, Objects, Outcome, STEPS, Session};
use std::alloc::{AllocError, Global};
use std::io;

// The text for how many steps were made.
fn steps_text(alloc: Global, left: &Left) -> Result<String, AllocError> {
    match left.steps {
        Some(1) => "1 step".to_string(alloc),
        Some(steps) => format!(in alloc; "{steps} steps"),
        None => "no board".to_string(alloc),
    }
}

// The text for how a session ended.
fn end_text(
    alloc: Global,
    session: &Session,
    failing: Failing,
    outcome: &Outcome,
) -> Result<String, AllocError> {
    let name = session.name;
    let steps = steps_text(alloc, &outcome.left)?;
    let status = outcome.left.status.number();
    let count = outcome.bytes().len();
    format!(in alloc; "{name}, {failing}: status {status}, {steps}, {count} bytes")
}

// Prints how a session ended, and all that it wrote.
fn tell_whole<R: Print>(rt: &R, end: &str, outcome: &Outcome) -> io::Result<()> {
    let text = str::from_utf8(outcome.bytes()).unwrap_or("no text");
    println!(rt; "{end}: {text:?}")
}

// Plays a session in which one call fails, and prints how it ended and all that it wrote.
fn whole_row<R: Print + AllocGlobal>(
    rt: &R,
    session: &Session,
    failing: Failing,
) -> io::Result<()> {
    let outcome = session.play(rt.alloc(), failing, STEPS)?;
    let end = end_text(rt.alloc(), session, failing, &outcome)?;
    tell_whole(rt, &end, &outcome)
}

/// Plays a session in which nothing fails, and then those in which the first, the second or the
/// third fetch fails. Each row has all that was written.
pub fn fetches<R: Print + AllocGlobal>(rt: &R, session: &Session) -> io::Result<()> {
    whole_row(rt, session, Failing::Nothing)?;
    for call in 1..=3 {
        whole_row(rt, session, Failing::Fetch(call))?;
    }
    Ok(())
}

// How the output compares with that of the session in which nothing fails: with all of it, and with
// that of the steps before the last.
fn standing(outcome: &Outcome, whole: &Outcome, before: &Outcome) -> &'static str {
    if !whole.bytes().starts_with(outcome.bytes()) {
        return "not a front of the whole";
    }
    if !outcome.bytes().starts_with(before.bytes()) {
        return "not all that the steps before the last wrote";
    }
    "a front of the whole, with all that the steps before the last wrote"
}

// Plays a session in which a put fails, and prints how it ended.
fn put_row<R: Print + AllocGlobal>(
    rt: &R,
    session: &Session,
    call: u64,
    whole: &Outcome,
) -> io::Result<()> {
    let failing = Failing::Put(call);
    let outcome = session.play(rt.alloc(), failing, STEPS)?;
    let earlier = outcome.left.steps.unwrap_or(0).saturating_sub(1);
    let before = session.play(rt.alloc(), Failing::Nothing, earlier)?;
    let verdict = standing(&outcome, whole, &before);
    let end = end_text(rt.alloc(), session, failing, &outcome)?;
    println!(rt; "{end}: {verdict}")
}

/// Plays a session in which nothing fails, and then those in which the first put fails, the second,
/// and so on. The last one fails at put `most` + 1, one more than the session makes.
pub fn puts<R: Print + AllocGlobal>(rt: &R, session: &Session, most: u64) -> io::Result<()> {
    let whole = session.play(rt.alloc(), Failing::Nothing, STEPS)?;
    let end = end_text(rt.alloc(), session, Failing::Nothing, &whole)?;
    tell_whole(rt, &end, &whole)?;
    for call in 1..=most {
        put_row(rt, session, call, &whole)?;
    }
    put_row(rt, session, most.saturating_add(1), &whole)
}

// Plays a session of one line, and prints how many pages of RAM are made when it ends.
fn pages_row<R: Print + AllocGlobal>(rt: &R, line: &str, objects: &Objects) -> io::Result<()> {
    let session = Session {
        name: line,
        console: line,
        objects,
    };
    let left = session.play(rt.alloc(), Failing::Nothing, STEPS)?.left;
    let status = left.status.number();
    match left.pages {
        Some(pages) => println!(rt; "{line:?}: status {status}, pages made: {pages}"),
        None => println!(rt; "{line:?}: status {status}, no board"),
    }
}

/// Lines of a console, each with nothing after it.
const LINES: [&str; 4] = ["", "1+2", "x = 7; x = 7; &x", "*0x1ffe = 7"];

/// Plays a session of each line, in which nothing fails, and prints how many pages of RAM are made
/// when it ends. A variable is a block at the beginning of the pool, in one page; the last line
/// writes a word that spans two pages.
pub fn pages<R: Print + AllocGlobal>(rt: &R, objects: &Objects) -> io::Result<()> {
    for line in LINES {
        pages_row(rt, line, objects)?;
    }
    Ok(())
}
