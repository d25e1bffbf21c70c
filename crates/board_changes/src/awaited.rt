//! What a task waits for.

use id_table::Ident;

/// What a task waits for.
#[derive(Clone, Copy, Debug, PartialEq, Eq)]
pub enum Awaited {
    /// To take this binary or counting semaphore.
    Semaphore(Ident),
    /// To take this mutex.
    Mutex(Ident),
    /// To receive a message from this queue.
    Receiving(Ident),
    /// To send a message to this queue.
    Sending(Ident),
    /// To delete this task, which is safe from deletion.
    Deletion(Ident),
    /// For the console.
    Console,
}
