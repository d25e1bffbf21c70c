//! One step of each actor on the board (the shell, a task, the active interrupt routine), and the
//! arrival of the console's bytes.
#![tactic(auto)]

mod arrival;
mod feed;
mod instructions;
mod processor;
mod reserving;
mod routine;
mod shell;
mod shell_task;
mod step_kind;
mod step_start;
mod text;

pub use arrival::hear_chunk;
pub use feed::{Feed, brought, chunk_len};
pub use instructions::execute_many;
pub use processor::{at_gate, counter, execute, run_routine};
pub use reserving::{drop_all, drop_own};
pub use routine::INTERRUPT_TOP;
pub use shell::Shell;
pub use shell_task::{listen, waits_for_console};
pub use step_kind::StepKind;
pub use step_start::{give_back, start_revocable_step, start_routine_step, start_step};
