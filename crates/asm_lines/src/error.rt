//! Why a source text is refused.

use thiserror::Error;

/// Why a line is refused.
#[derive(Clone, Copy, Debug, PartialEq, Eq, Error)]
pub enum Cause {
    /// The line is outside the grammar, or an operand is outside its range.
    #[error("not understood")]
    BadLine,
    /// An instruction stands in the data section, or at an offset that isn't a multiple of 4.
    #[error("an instruction can't stand here")]
    BadPlace,
    /// The processor has no such instruction: its word is outside the table.
    #[error("no such instruction")]
    BadWord,
    /// An earlier line defines the label.
    #[error("the label is defined twice")]
    Twice,
    /// A section exceeds 1 MiB, or there are more than 65,535 names or relocations.
    #[error("too large")]
    TooLarge,
}

/// Why a source text is refused.
#[derive(Clone, Copy, Debug, PartialEq, Eq, Error)]
pub enum AsmErr {
    /// The first refused line, counted from 1, and its first cause.
    #[error("line {0}: {1}")]
    Bad(u64, Cause),
    /// Host memory ran out.
    #[error("out of memory")]
    NoMemory,
}
