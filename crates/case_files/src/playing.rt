//! Plays the cases of files.

use crate::reading::Trouble;
use std::alloc::Global;
use std::env::{self, Env};
use std::fs::{self, Files};
use std::io;

/// A player of the cases of one file.
pub trait Player {
    /// A player that has played nothing.
    fn new(alloc: Global) -> Result<Self, Trouble>;

    /// Plays a case. Returns the result if it differs from what the line says.
    fn play(&mut self, line: &str) -> Result<Option<String>, Trouble>;
}

/// Plays the cases of each file named by the program's arguments, with a new player for each file.
/// Prints each case whose result differs, and for each file how many cases agree.
pub fn play_files<P: Player + Drop, R: Env + Files + Print + AllocGlobal>(
    rt: &R,
) -> io::Result<()> {
    let mut files = env::args(rt)?;
    let _program = files.next();
    for file in files {
        let text = fs::read_to_string(rt, file.as_str())?;
        match P::new(rt.alloc()) {
            Ok(mut player) => play_lines(rt, file.as_str(), text.as_str(), &mut player)?,
            Err(_) => println!(rt; "{file}: out of memory")?,
        }
    }
    Ok(())
}

// Plays each case of a file.
fn play_lines<P: Player, R: Print>(
    rt: &R,
    file: &str,
    text: &str,
    player: &mut P,
) -> io::Result<()> {
    let mut cases = 0u64;
    let mut agreeing = 0u64;
    for line in text.lines() {
        if line.is_empty() || line.starts_with('#') {
            continue;
        }
        cases = cases.wrapping_add(1);
        match player.play(line) {
            Ok(None) => agreeing = agreeing.wrapping_add(1),
            Ok(Some(answer)) => println!(rt; "differs: {line}: {answer}")?,
            Err(Trouble::Unreadable) => println!(rt; "unreadable: {line}")?,
            Err(Trouble::NoMemory) => println!(rt; "out of memory: {line}")?,
        }
    }
    println!(rt; "{file}: {agreeing} of {cases} cases agree")
}
