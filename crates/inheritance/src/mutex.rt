//! A mutex.

use id_table::Ident;

/// A semaphore for mutual exclusion: the task that takes it owns it (VxWorks 5.4 Reference Manual,
/// semMLib).
#[derive(Drop)]
pub struct Mutex {
    /// Whether tasks wait for it by priority. If not, they wait in order of arrival.
    pub by_priority: bool,
    /// Whether each take is a safe section of its owner.
    pub delete_safe: bool,
    /// Whether its owner inherits the priorities of its waiters.
    pub inversion_safe: bool,
    /// The task that owns it, live or ended. None if it is free.
    pub owner: Option<Ident>,
    /// How many times the owner has taken it and not given it back.
    pub depth: u64,
}
