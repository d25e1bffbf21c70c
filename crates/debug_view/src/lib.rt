//! What gdb is told of a state: threads and their registers, the memory, the loaded modules, and
//! who makes the next step. Each reply is a function of the state, and of who ended in the step
//! before.
#![tactic(auto)]

mod ended;
mod laws;
mod making;
mod memory;
mod modules;
mod registers;
mod rows;
mod stopping;
#[cfg(test)]
mod tests;
mod threads;
mod words;

pub use ended::{Ended, gone_in, last_of};
pub use laws::{listed_law, places_law};
pub use making::{NextStep, next_step};
pub use memory::{add_memory, is_watchable, ram_bytes};
pub use modules::{add_module, are_loaded};
pub use registers::add_registers_of;
pub use rows::add_threads;
pub use stopping::named_thread;
pub use threads::{INTERRUPT_THREAD, is_told, thread_of};
