//! The error of an access outside RAM.

use thiserror::Error;

/// A byte of the range is outside RAM. The object of the call is unchanged.
#[derive(Clone, Copy, Debug, PartialEq, Eq, Error)]
#[error("outside RAM")]
pub struct Outside;
