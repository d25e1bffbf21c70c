//! Executes instructions on registers and memory described in files, and compares the results with
//! those in the files.
#![tactic(auto)]

mod case;
mod state;

use case::Cases;
use case_files::play_files;
use std::io;

/// Plays the cases of each file named by the program's arguments.
fn main(rt: HostRuntime) -> io::Result<()> {
    play_files::<Cases, _>(&rt)
}
