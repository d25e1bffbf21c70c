//! Plays loads and unloads that files describe, of object files that they describe too, and
//! compares the answers with those in the files.
#![tactic(auto)]

mod board;
mod draft;
mod opening;
mod picture;
mod reading;
mod session;
mod showing;

use case_files::play_files;
use session::Session;
use std::io;

/// Plays the session of each file named on the command line.
fn main(rt: HostRuntime) -> io::Result<()> {
    play_files::<Session, _>(&rt)
}
