//! The execution of one PowerPC instruction, over any bus.
#![tactic(auto)]

mod arithmetic;
mod branch;
mod bus;
mod condition;
mod execution;
mod laws;
mod logic;
mod multiple;
mod operands;
mod registers;
mod stepping;
mod storage;
mod storing;
mod trap;
mod words;

pub use bus::{Bus, Fault};
pub use execution::exec;
pub use laws::{instruction_law, move_to_cr_law};
pub use stepping::{Progress, run_registers};
pub use storage::offset;
pub use storing::{
    finish_load, finish_load_byte, finish_load_update, load_address, run_bus, store_word,
    store_word_update,
};
pub use trap::Trap;
