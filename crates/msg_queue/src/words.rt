//! The arguments and outcomes of the calls.

use id_table::Ident;
use thiserror::Error;
use wind_base::{Errno, NoMemory};

/// The arguments of a send.
#[derive(Clone, Copy)]
pub struct Sending {
    /// The task that calls. None if an interrupt routine calls.
    pub caller: Option<Ident>,
    /// The address of the message's bytes.
    pub buffer: u32,
    /// The number of bytes.
    pub count: u32,
    /// How many ticks the caller waits at most, or `WAIT_FOREVER`, or `NO_WAIT`.
    pub timeout: u32,
    /// Whether the message goes to the front of the queue.
    pub urgent: bool,
}

/// The arguments of a receive.
#[derive(Clone, Copy)]
pub struct Receiving {
    /// The task that calls.
    pub caller: Ident,
    /// The address to which the bytes are copied.
    pub buffer: u32,
    /// The number of bytes for which there is room.
    pub room: u32,
    /// How many ticks the caller waits at most, or `WAIT_FOREVER`, or `NO_WAIT`.
    pub timeout: u32,
}

/// The outcome of a receive that wasn't refused.
#[derive(Clone, Copy, Debug, PartialEq, Eq)]
pub enum Got {
    /// The given number of bytes was copied.
    Count(u32),
    /// The caller waits.
    Pended,
}

/// Why no queue was made. Nothing changed.
#[derive(Clone, Copy, Debug, PartialEq, Eq, Error)]
pub enum MakeErr {
    /// The call was refused.
    #[error("refused")]
    Refused(Errno),
    /// Host memory ran out.
    #[error("{NoMemory}")]
    NoMemory,
}
