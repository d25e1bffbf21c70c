//! windlink links relocatable modules for PowerPC into one image, each at given addresses.
#![tactic(auto)]

use program_main::start;
use std::process::ExitCode;
use wind_link::windlink;
use wind_outside::{HostFolder, HostSink};

fn main(rt: HostRuntime) -> ExitCode {
    start(rt, rt.stderr(), &["windlink"], |words, err| {
        let mut out = HostSink::new(rt.stdout());
        windlink(rt.alloc(), words, &mut HostFolder::new(rt), &mut out, err).number()
    })
}
