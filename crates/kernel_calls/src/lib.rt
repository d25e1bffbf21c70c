//! The kernel's calls: one row for each gate, over the world that they read and change.
#![tactic(auto)]

mod calls;
mod files;
mod laws;
mod module_rows;
mod rows;
mod show_rows;

pub use call_rows::irq_rows::is_device;
pub use call_rows::{
    Actor, OUTPUT_BYTES, Reply, World, end_task, gate_address, gate_at, is_call,
    may_exhaust_memory, put_frame, starting_regs,
};
pub use calls::{Called, kernel_call, make_call};
pub use files::{Load, file_wanted, load_wanted};
pub use laws::{removal_law, world_law};
