//! windplay plays a session of a wind kernel's shell on a modelled board. It reads a console file
//! and writes the bytes of the console.
#![tactic(auto)]

use program_main::start;
use session_promises::play_program;
use std::process::ExitCode;
use wind_outside::{HostFolder, HostSink};

// Words that are no command; they replace arguments that are not UTF-8.
const NO_COMMAND: [&str; 2] = ["windplay", "(arguments that are no text)"];

fn main(rt: HostRuntime) -> ExitCode {
    start(rt, rt.stderr(), &NO_COMMAND, |words, err| {
        let mut out = HostSink::new(rt.stdout());
        play_program(rt.alloc(), words, &mut HostFolder::new(rt), &mut out, err)
    })
}
