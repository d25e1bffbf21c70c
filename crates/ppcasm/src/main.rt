//! ppcasm assembles a file for PowerPC into a relocatable module, or lists the instructions of a module.
#![tactic(auto)]

use ppc_asm::ppcasm;
use program_main::start;
use std::process::ExitCode;
use wind_outside::{HostFolder, HostSink};

fn main(rt: HostRuntime) -> ExitCode {
    start(rt, rt.stderr(), &["ppcasm"], |words, err| {
        let mut out = HostSink::new(rt.stdout());
        ppcasm(rt.alloc(), words, &mut HostFolder::new(rt), &mut out, err).number()
    })
}
