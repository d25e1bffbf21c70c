//! An assembler for PowerPC: the module of a source text, the listing of a module, and the call of the program.
#![tactic(auto)]

mod assembling;
mod command;
mod listing;
mod position;
mod report;
mod status;

pub use asm_lines::{AsmErr, Cause};
pub use assembling::{assemble, decoded_law, shown_law};
pub use command::ppcasm;
pub use status::AsmStatus;
