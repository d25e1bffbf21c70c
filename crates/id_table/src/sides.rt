//! The sides of a place at which tasks wait.

/// The task waits for a semaphore or a mutex, or receives from a message queue.
pub const OBJECT: u8 = 0;

/// The task sends to a message queue.
pub const SENDERS: u8 = 1;

/// The task deletes a task that is protected from deletion.
pub const DELETION: u8 = 2;

/// The task waits for a console line.
pub const CONSOLE: u8 = 3;
