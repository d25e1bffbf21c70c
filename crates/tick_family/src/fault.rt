//! Why a family isn't read.

use thiserror::Error;
use wind_base::NoMemory;

/// What is wrong with a line.
#[derive(Clone, Copy, Debug, PartialEq, Eq, Error)]
pub enum Fault {
    /// It isn't a line of a family.
    #[error("is not understood")]
    NotUnderstood,
    /// Its range ends before it begins.
    #[error("has a range that ends before it begins")]
    EndsEarly,
    /// The step of its range is 0.
    #[error("has a range with step 0")]
    StepOfZero,
    /// With it the family has more than 10^12 members.
    #[error("makes more than 1000000000000 members")]
    TooManyMembers,
    /// It asks for an event later than 4,294,967,295, after its shift.
    #[error("asks for a time over 4294967295")]
    TimeTooLate,
    /// With it a member's tick file is longer than 1 MiB.
    #[error("makes a tick file of over 1 MiB")]
    TextTooLong,
}

/// Why a family isn't read.
#[derive(Clone, Copy, Debug, PartialEq, Eq, Error)]
pub enum FamilyErr {
    /// The number of the first bad line, counted from 1, and what is wrong with it.
    #[error("line {0} {1}")]
    BadLine(u64, Fault),
    /// Host memory ran out.
    #[error("{NoMemory}")]
    NoMemory,
}
