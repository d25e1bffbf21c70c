//! The rule by which owners of mutexes inherit priorities.

/// When a task loses a priority that it has inherited.
#[derive(Clone, Copy, Debug, PartialEq, Eq)]
pub enum Profile {
    /// When it owns no inversion-safe mutex any more.
    One,
    /// At once, when no task that has this normal priority waits for it.
    Two,
}
