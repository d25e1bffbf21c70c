//! The error numbers of the kernel's calls.

ghost use Rattle.std.specs.Prelude.{◌≡◌};

use std::fmt::{self, Display, Formatter};

/// Why a kernel call is refused, or how a wait ended. The numbers are this project's own table.
#[derive(Clone, Copy, Debug, PartialEq, Eq)]
pub enum Errno {
    /// No live object of the wanted kind has this id.
    ObjIdError,
    /// The object isn't available now, and the caller doesn't wait.
    ObjUnavailable,
    /// The object was deleted while the caller waited for it.
    ObjDeleted,
    /// The wait timed out.
    ObjTimeout,
    /// The memory partition has no room for a block of this size.
    NotEnoughMemory,
    /// No block of the memory partition begins at this address.
    NotABlock,
    /// The memory partition doesn't allow the requested alignment of a block.
    BadAlign,
    /// A byte range, word or string named by the call isn't wholly in memory, or a name is empty or
    /// longer than 255 bytes.
    BadAddress,
    /// The priority is above 255.
    IllegalPriority,
    /// The caller ends its deletion protection and has none.
    NotSafe,
    /// The board's limit of live objects of this kind is reached.
    TooMany,
    /// No id is left for a new object.
    IdsSpent,
    /// No live task has this name.
    TaskNotFound,
    /// The initial state of a binary semaphore is above 1.
    InvalidState,
    /// The options aren't valid for this kind of object.
    InvalidOption,
    /// The kind of semaphore doesn't allow this call, the caller isn't the mutex's owner, or the call
    /// would delete the shell's task.
    InvalidOperation,
    /// The count of a semaphore would exceed the greatest count.
    CountOver,
    /// The message is longer than the queue takes.
    InvalidMsgLength,
    /// An interrupt routine sends a message with a timeout other than 0.
    NonZeroTimeout,
    /// A count, a size or a width is outside its limits.
    BadSize,
    /// An interrupt routine isn't allowed to make this call.
    NotIsrCallable,
    /// Only the shell's task is allowed to make this call.
    NotShell,
    /// The symbol table is full.
    SymbolsFull,
    /// The kind of a symbol isn't 1 to 4.
    BadKind,
    /// A module could not be loaded.
    LoadFailed,
    /// No live module has this id or this name.
    NoSuchModule,
}

impl Errno {
    ghost use Rattle.wind_base.specs.Errno.{errno_name, errno_number};

    /// The error number.
    pub fn number(self) -> u32
        ensures { result ≡ errno_number self }
    {
        match self {
            Errno::ObjIdError => 0x3d_0001,
            Errno::ObjUnavailable => 0x3d_0002,
            Errno::ObjDeleted => 0x3d_0003,
            Errno::ObjTimeout => 0x3d_0004,
            Errno::NotEnoughMemory => 0x11_0001,
            Errno::NotABlock => 0x11_0002,
            Errno::BadAlign => 0x11_0003,
            Errno::BadAddress => 0x11_0004,
            Errno::IllegalPriority => 0x3_0001,
            Errno::NotSafe => 0x3_0002,
            Errno::TooMany => 0x3_0003,
            Errno::IdsSpent => 0x3_0004,
            Errno::TaskNotFound => 0x3_0005,
            Errno::InvalidState => 0x16_0001,
            Errno::InvalidOption => 0x16_0002,
            Errno::InvalidOperation => 0x16_0003,
            Errno::CountOver => 0x16_0004,
            Errno::InvalidMsgLength => 0x41_0001,
            Errno::NonZeroTimeout => 0x41_0002,
            Errno::BadSize => 0x41_0003,
            Errno::NotIsrCallable => 0x43_0001,
            Errno::NotShell => 0x43_0002,
            Errno::SymbolsFull => 0x1c_0001,
            Errno::BadKind => 0x1c_0002,
            Errno::LoadFailed => 0x1d_0001,
            Errno::NoSuchModule => 0x1d_0002,
        }
    }

    /// The name of the error, as it is displayed.
    pub fn name(self) -> &'static str
        ensures { result.now ≡ errno_name self }
    {
        match self {
            Errno::ObjIdError => "OBJ_ID_ERROR",
            Errno::ObjUnavailable => "OBJ_UNAVAILABLE",
            Errno::ObjDeleted => "OBJ_DELETED",
            Errno::ObjTimeout => "OBJ_TIMEOUT",
            Errno::NotEnoughMemory => "NOT_ENOUGH_MEMORY",
            Errno::NotABlock => "NOT_A_BLOCK",
            Errno::BadAlign => "BAD_ALIGN",
            Errno::BadAddress => "BAD_ADDRESS",
            Errno::IllegalPriority => "ILLEGAL_PRIORITY",
            Errno::NotSafe => "NOT_SAFE",
            Errno::TooMany => "TOO_MANY",
            Errno::IdsSpent => "IDS_SPENT",
            Errno::TaskNotFound => "TASK_NOT_FOUND",
            Errno::InvalidState => "INVALID_STATE",
            Errno::InvalidOption => "INVALID_OPTION",
            Errno::InvalidOperation => "INVALID_OPERATION",
            Errno::CountOver => "COUNT_OVER",
            Errno::InvalidMsgLength => "INVALID_MSG_LENGTH",
            Errno::NonZeroTimeout => "NON_ZERO_TIMEOUT",
            Errno::BadSize => "BAD_SIZE",
            Errno::NotIsrCallable => "NOT_ISR_CALLABLE",
            Errno::NotShell => "NOT_SHELL",
            Errno::SymbolsFull => "SYMBOLS_FULL",
            Errno::BadKind => "BAD_KIND",
            Errno::LoadFailed => "LOAD_FAILED",
            Errno::NoSuchModule => "NO_SUCH_MODULE",
        }
    }
}

impl Display for Errno {
    fn fmt<W: fmt::Write>(&self, f: &mut Formatter<W>) -> fmt::Result {
        f.write_str(self.name())
    }
}
