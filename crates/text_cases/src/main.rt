//! Plays formats of `printf` and look-ups of symbols that files describe, and compares what is
//! written with what the files say.
#![tactic(auto)]

mod reading;
mod session;
mod words;

use case_files::play_files;
use session::Session;
use std::io;

/// Plays the lines of each file named on the command line.
fn main(rt: HostRuntime) -> io::Result<()> {
    play_files::<Session, _>(&rt)
}
