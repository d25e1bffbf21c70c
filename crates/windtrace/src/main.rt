//! windtrace plays a session as windplay does, and tells what happened: as lines, as a picture, as
//! objects for other programs, or as the board that is left.
#![tactic(auto)]

use program_main::start;
use std::process::ExitCode;
use trace_session::trace_program;
use wind_outside::{HostFolder, HostSink};

// Words that are no command; they replace arguments that are not UTF-8.
const NO_COMMAND: [&str; 2] = ["windtrace", "(arguments that are no text)"];

fn main(rt: HostRuntime) -> ExitCode {
    start(rt, rt.stderr(), &NO_COMMAND, |words, err| {
        let mut out = HostSink::new(rt.stdout());
        trace_program(rt.alloc(), words, &mut HostFolder::new(rt), &mut out, err)
    })
}
