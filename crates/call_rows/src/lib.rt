//! The rows of the kernel's calls: on tasks, on semaphores, mutexes, message queues, watchdogs and the
//! interrupts of devices, on the memory partition and on symbols; and the end of a task.
#![tactic(auto)]

mod ending;
pub mod irq_rows;
pub mod memory_rows;
pub mod queue_rows;
pub mod safety_rows;
pub mod sem_rows;
pub mod spawning;
pub mod symbol_rows;
pub mod task_rows;
pub mod watch_rows;

pub use ending::end_task;
pub use kernel_world::{
    Actor, Call, DONE, OUTPUT_BYTES, Reply, World, errno_of, gate_address, gate_at, is_call,
    is_isr_callable, is_shell, is_shells_own, leave_gate, may_exhaust_memory, put_frame, read_call,
    reply_to, set_errno, starting_regs,
};
