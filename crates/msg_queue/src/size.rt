//! The options and size limits of a queue.

ghost use Rattle.std.specs.Prelude.{◌≡◌};
ghost use Rattle.msg_queue.specs.Comings.{is_size as is_size_lem};

/// Tasks wait at the queue in order of arrival (VxWorks 5.4 Reference Manual, msgQCreate).
pub const MSG_Q_FIFO: u32 = 0;

/// Tasks wait at the queue by priority (VxWorks 5.4 Reference Manual, msgQCreate).
pub const MSG_Q_PRIORITY: u32 = 1;

/// The greatest number of messages of a queue.
pub const MESSAGES: u32 = 4096;

/// The greatest length in bytes of a message: 64 KiB.
pub const LONGEST_MESSAGE: u32 = 65_536;

/// The greatest size in bytes of all messages of a queue together: 1 MiB.
pub const QUEUE_BYTES: u32 = 1_048_576;

// Whether a queue can have this size.
pub(crate) fn is_size(max_msgs: u32, max_len: u32) -> bool
    ensures { result ≡ is_size_lem max_msgs max_len }
{
    max_msgs >= 1
        && max_msgs <= MESSAGES
        && max_len <= LONGEST_MESSAGE
        && max_msgs * max_len <= QUEUE_BYTES
}
