//! Loads a module during a run: the call `ld`, given the folder's answer about its file.
#![tactic(auto)]

mod answer;
mod laws;
mod load;
mod outcome;
mod text;

pub use answer::FileAnswer;
pub use kernel_calls::{
    Actor, OUTPUT_BYTES, Reply, World, end_task, file_wanted, gate_address, gate_at, is_call,
    is_device, make_call, may_exhaust_memory, put_frame, starting_regs,
};
pub use laws::loading_law;
pub use load::kernel_load;
