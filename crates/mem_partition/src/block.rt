//! The blocks of a partition, and the errors of its calls.

use thiserror::Error;

/// Who may free a block.
#[derive(Clone, Copy, Debug, PartialEq, Eq)]
pub enum Class {
    /// Blocks that programs ask for, by `malloc` and `memalign`.
    User,
    /// Blocks that the kernel, the loader and the shell hold: stacks, segments of modules, words
    /// and strings of the shell.
    Kernel,
}

/// Why the partition refuses a call. Nothing has changed.
#[derive(Clone, Copy, Debug, PartialEq, Eq, Error)]
pub enum PartErr {
    /// No place in the pool has enough room.
    #[error("no room for the block")]
    NoRoom,
    /// No more blocks may exist.
    #[error("too many blocks")]
    BlocksFull,
    /// The alignment isn't a power of two from 1 to 65,536.
    #[error("the alignment is not allowed")]
    BadAlign,
    /// No block of this class begins there.
    #[error("no block of this class begins there")]
    NotABlock,
}

/// An allocated block: `size` bytes from address `addr` on. The size is a multiple of 16 and at
/// least 16.
#[derive(Clone, Copy, Debug, PartialEq, Eq)]
pub struct Block {
    /// Its first address, a multiple of 16.
    pub addr: u32,
    /// Its size in bytes.
    pub size: u32,
    /// Who may free it.
    pub class: Class,
}
