//! Plays tables of calls over a world from its start on, and prints whether each goes as worked out
//! by hand.
#![tactic(auto)]

mod bench;
mod looks;
mod steps;
mod tables;

use std::io;
use steps::{Outcome, Table, play};
use tables::GROUPS;

/// Plays each table.
fn main(rt: HostRuntime) -> io::Result<()> {
    for group in GROUPS {
        play_all(&rt, group)?;
    }
    Ok(())
}

// Plays the tables of a group, and prints the outcome of each.
fn play_all<R: Print + AllocGlobal>(rt: &R, group: &[Table]) -> io::Result<()> {
    for table in group {
        let name = table.name;
        match play(rt.alloc(), table) {
            Outcome::AsWorkedOut => println!(rt; "{name}: as worked out")?,
            Outcome::Wrong(number) => println!(rt; "{name}: step {number} is wrong")?,
            Outcome::NoWorld => println!(rt; "{name}: no world could be made")?,
        }
    }
    Ok(())
}
