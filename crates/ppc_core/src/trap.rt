//! The traps of instructions.

use thiserror::Error;

/// Why an instruction isn't executed. Registers and memory are unchanged.
#[derive(Clone, Copy, Debug, PartialEq, Eq, Error)]
pub enum Trap {
    /// The word isn't an instruction.
    #[error("the word is no instruction")]
    Illegal,
    /// The access must be at a multiple of 4, and isn't.
    #[error("the access is not aligned")]
    Align,
    /// A byte of the access can't be reached.
    #[error("a byte of the access cannot be reached")]
    Access,
    /// The condition of a trap instruction holds.
    #[error("the condition of a trap instruction holds")]
    TrapInsn,
    /// A system call, which this processor doesn't execute.
    #[error("system call")]
    Sysc,
}

/// How the execution of an instruction ends: it is done, or it traps.
pub(crate) type Ending = Result<(), Trap>;
