//! windlive plays a session of a wind kernel's shell while it is typed. It reads lines from standard
//! input, or keys from a terminal, and writes the bytes of the console to standard output.
#![tactic(auto)]

mod modules;
mod replaying;
mod screen;

use crate::modules::Modules;
use crate::replaying::Watched;
use crate::screen::{Screen, Shows};
use live_session::{
    HostInput, HostRecordFolder, HostTerminal, Input, Status, command_of, is_at_terminal,
    live_program, tell_no_memory,
};
use program_main::start;
use std::cell::Cell;
use std::io::{BufReader, IsTerminal, Print};
use std::process::ExitCode;
use wind_outside::{Folder, HostFolder, HostSink};

// Words that are no command; they replace arguments that are not UTF-8.
const NO_COMMAND: [&str; 2] = ["windlive", "(arguments that are no text)"];

// What a session shares: the host, its words, and whether the console's line has no end yet.
#[derive(Clone, Copy)]
struct Around<'a> {
    rt: HostRuntime,
    words: &'a [&'a str],
    is_open: Option<&'a Cell<bool>>,
}

// Plays the session of this input with this folder of modules.
fn play_with<I: Input, F: Folder, E: Print + Drop>(
    around: Around,
    input: &mut I,
    folder: &mut F,
    err: &mut HostSink<E>,
) -> u8 {
    let rt = around.rt;
    let mut out = HostSink::new(Screen::new(rt.stdout(), Shows::Console, around.is_open));
    let mut records = HostRecordFolder::new(rt);
    live_program(
        rt.alloc(),
        around.words,
        input,
        folder,
        &mut out,
        err,
        &mut records,
    )
}

// Plays the session of this input. With a record, the board's modules are those of the record.
fn play<I: Input, E: Print + Drop>(around: Around, input: &mut I, err: &mut HostSink<E>) -> u8 {
    let rt = around.rt;
    let alloc = rt.alloc();
    match command_of(alloc, around.words) {
        Ok(command) if !command.record.is_empty() => {
            let texts = Screen::new(rt.stderr(), Shows::Texts, around.is_open);
            let is_replaying = Cell::new(command.continues);
            let mut modules = Modules::new(alloc, rt, &command, &is_replaying, texts);
            let mut watched = Watched::new(input, &is_replaying);
            play_with(around, &mut watched, &mut modules, err)
        }
        _ => play_with(around, input, &mut HostFolder::new(rt), err),
    }
}

// Plays the session that is typed at a terminal.
fn play_typed<E: Print + Drop>(around: Around, err: &mut HostSink<E>) -> u8 {
    let rt = around.rt;
    let alloc = rt.alloc();
    let echo = Screen::new(rt.stderr(), Shows::Echo, around.is_open);
    if let Ok(keys) = BufReader::new(alloc, rt.stdin())
        && let Ok(mut input) = HostTerminal::new(alloc, keys, echo)
    {
        return play(around, &mut input, err);
    }
    tell_no_memory(err);
    Status::NoMemory.number()
}

fn main(rt: HostRuntime) -> ExitCode {
    let line = Cell::new(false);
    let is_shared = rt.stdout().is_terminal() && rt.stderr().is_terminal();
    let is_open = if is_shared { Some(&line) } else { None };
    let texts = Screen::new(rt.stderr(), Shows::Texts, is_open);
    start(rt, texts, &NO_COMMAND, |words, err| {
        let around = Around { rt, words, is_open };
        if !is_at_terminal(words) {
            return play(around, &mut HostInput::new(rt.reader()), err);
        }
        let number = play_typed(around, err);
        let _ = err.handle.end_line();
        number
    })
}
