//! The start of a program: its words, and its exit status.

ghost use Rattle.std.specs.Prelude.{IfOk};
ghost use Rattle.program_main.specs.Exits.{ExitsWith};

use crate::message::put_text;
use std::alloc::{AllocError, Global};
use std::env;
use std::io::{ErrorKind, Print};
use std::process::ExitCode;
use std::rt::Env;
use wind_base::NoMemory;
use wind_outside::HostSink;

// The exit status of a program that runs out of host memory.
const NO_MEMORY: u8 = 6;

fn owned(alloc: Global, words: &[&str]) -> Result<Vec<String>, AllocError> {
    let mut owned = Vec::new(alloc);
    for word in words {
        owned.push(word.to_string(alloc)?)?;
    }
    Ok(owned)
}

// The arguments of the command line. If one of them isn't UTF-8, the answer is `refused`.
fn arguments<R: Env + AllocGlobal>(rt: &R, refused: &[&str]) -> Result<Vec<String>, NoMemory> {
    match env::args(rt) {
        Ok(args) => args.collect(rt.alloc()).or(Err(NoMemory)),
        Err(error) if error.kind() == ErrorKind::OutOfMemory => Err(NoMemory),
        Err(_) => owned(rt.alloc(), refused).or(Err(NoMemory)),
    }
}

// The arguments as borrowed strings.
fn lent<'a>(alloc: Global, words: &'a [String]) -> Result<Vec<&'a str>, NoMemory> {
    words
        .iter()
        .map(|word| word.as_str())
        .collect::<Vec<&str>>(alloc)
        .or(Err(NoMemory))
}

// The exit status of a program on its words.
fn status<R, E, P>(rt: &R, err: &mut E, refused: &[&str], program: P) -> Result<u8, NoMemory>
where
    R: Env + AllocGlobal,
    P: FnOnce(&[&str], &mut E) -> u8 + Drop,
    requires { P.IsAlwaysCallable program }
    ensures { IfOk result (λ number. (words : _) × (before : _) × (after : _) × P.post program words before number after) }
{
    let args = arguments(rt, refused)?;
    let words = lent(rt.alloc(), &args)?;
    Ok(program(&words, err))
}

/// Runs a program on the words of its command line, with `err` for its messages. `refused` is the
/// program's name, then words that it answers with a usage message; they stand for arguments that
/// aren't UTF-8. If there is no memory for the words, the exit status is 6 and a message says so.
pub fn start<R, E, P>(rt: R, err: E, refused: &[&str], program: P) -> ExitCode
where
    R: Env + AllocGlobal + Drop,
    E: Print + Drop,
    P: FnOnce(&[&str], &mut HostSink<E>) -> u8 + Drop,
    requires { P.IsAlwaysCallable program }
    ensures { ExitsWith
        (λ number. (words : _) × (before : _) × (after : _) × P.post program words before number after) result }
{
    let mut err = HostSink::new(err);
    let number = match status(&rt, &mut err, refused, program) {
        Ok(number) => number,
        Err(NoMemory) => {
            let name = refused.first().copied().unwrap_or("");
            let _ = put_text(&mut err, &[name.as_bytes(), b": out of memory\n"]);
            NO_MEMORY
        }
    };
    ExitCode::from(number)
}
