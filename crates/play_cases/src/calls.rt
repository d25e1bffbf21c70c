//! The calls that sessions make to the folder and the sink.

use crate::session::{Failing, Logged, Session};
use outside_log::{LoggedFetch, LoggedPut};
use std::io;

// Prints each fetch, in order.
fn tell_fetches<R: Print>(rt: &R, label: &str, fetches: &[LoggedFetch]) -> io::Result<()> {
    for fetch in fetches {
        let file = fetch.name.as_str();
        let limit = fetch.limit;
        let outcome = fetch.outcome;
        println!(rt; "{label}: fetch {file}, at most {limit} bytes: {outcome:?}")?;
    }
    Ok(())
}

// Prints each put, in order.
fn tell_puts<R: Print>(rt: &R, label: &str, puts: &[LoggedPut]) -> io::Result<()> {
    for put in puts {
        let piece = str::from_utf8(&put.bytes).unwrap_or("no text");
        let outcome = put.outcome;
        println!(rt; "{label}: put {piece:?}: {outcome:?}")?;
    }
    Ok(())
}

// Prints the calls of a session.
fn tell_calls<R: Print>(rt: &R, label: &str, logged: &Logged) -> io::Result<()> {
    match logged.folder.fetches() {
        Some(fetches) => tell_fetches(rt, label, fetches)?,
        None => println!(rt; "{label}: no memory to log the fetches")?,
    }
    match logged.out.puts() {
        Some(puts) => tell_puts(rt, label, puts),
        None => println!(rt; "{label}: no memory to log the puts"),
    }
}

/// The calls that fail, one for each session.
const FAILING: [Failing; 4] = [
    Failing::Nothing,
    Failing::Fetch(2),
    Failing::Fetch(3),
    Failing::Put(4),
];

/// Plays a session in which nothing fails, and then those in which one call fails. Prints every
/// fetch and every put.
pub fn calls<R: Print + AllocGlobal>(rt: &R, session: &Session) -> io::Result<()> {
    for failing in FAILING {
        let logged = session.play_logged(rt.alloc(), failing)?;
        let name = session.name;
        let label = format!(in rt.alloc(); "{name}, {failing}")?;
        tell_calls(rt, &label, &logged)?;
    }
    Ok(())
}
