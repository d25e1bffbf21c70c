//! Plays sessions in which one call of the folder or the sink fails, and prints how they ended and
//! which calls they made. It also plays sessions of one line, and prints how many pages of RAM they
//! make.
#![tactic(auto)]

mod calls;
mod session;
mod table;

use calls::calls;
use session::{Objects, Session};
use std::{fs, io};
use table::{fetches, pages, puts};

/// Plays the tables.
fn main(rt: HostRuntime) -> io::Result<()> {
    let objects = Objects {
        f: fs::read(&rt, "f.o")?,
        caller: fs::read(&rt, "caller.o")?,
    };
    play(&rt, &objects)
}

// Plays the tables, with these modules.
fn play<R: Print + AllocGlobal>(rt: &R, objects: &Objects) -> io::Result<()> {
    let sum = Session {
        name: "1+2",
        console: "1+2\n",
        objects,
    };
    let sum_and_load = Session {
        name: "1+2 and a module",
        console: "1+2\nld < a.o\n",
        objects,
    };
    let three_loads = Session {
        name: "three modules",
        console: "ld < a.o\nld < b.o\nld < c.o\nunld 3\n&f\n*0x15e70\n",
        objects,
    };
    fetches(rt, &sum)?;
    fetches(rt, &sum_and_load)?;
    puts(rt, &sum, 4)?;
    puts(rt, &three_loads, 19)?;
    calls(rt, &sum_and_load)?;
    pages(rt, objects)
}
