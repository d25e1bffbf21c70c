//! The world that the kernel's calls read and change: its parts, its start, who makes a call, and
//! how one is answered.
#![tactic(auto)]

mod actor;
mod answering;
mod board_gates;
mod boot;
mod call;
mod gates;
mod leaving;
mod objects;
mod reply;
mod starting;
mod world;

pub use actor::{Actor, caller_regs, is_shell, stack_word, target};
pub use answering::{errno_of, reply_to, set_errno};
pub use board_gates::{gate_address, gate_at};
pub use boot::OUTPUT_BYTES;
pub use call::{Call, read_call};
pub use gates::{is_call, is_isr_callable, is_shells_own, may_exhaust_memory};
pub use leaving::leave_gate;
pub use objects::Objects;
pub use reply::{DONE, Reply};
pub use starting::{put_frame, starting_regs};
pub use world::World;
