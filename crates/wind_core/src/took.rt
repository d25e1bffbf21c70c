//! How a call that may wait ends.

/// The outcome of a call that may wait and isn't refused.
#[derive(Clone, Copy, Debug, PartialEq, Eq)]
pub enum Took {
    /// The call is done.
    Taken,
    /// The caller waits: the call pended.
    Pended,
}
