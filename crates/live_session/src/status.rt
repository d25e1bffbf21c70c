//! How a live session ends.

ghost use Rattle.std.specs.Prelude.{◌≡◌};

/// The status of a live session: how it ended.
#[derive(Clone, Copy, Debug, PartialEq, Eq)]
pub enum Status {
    /// The input ended, or asked for the end; if a record was asked for, it was written.
    Ended,
    /// The arguments are invalid, or `--help` was given.
    Usage,
    /// Reading the input or a module failed.
    ReadFault,
    /// Writing failed.
    WriteFault,
    /// Host memory ran out.
    NoMemory,
    /// The record was not written.
    Unrecorded,
}

impl Status {
    ghost use Rattle.live_session.specs.Status.{status_number};

    /// The exit status of the program: that of windplay, and 9 if the record was not written.
    pub fn number(self) -> u8
        ensures { result ≡ status_number self }
    {
        match self {
            Status::Ended => 0,
            Status::Usage => 1,
            Status::ReadFault => 4,
            Status::WriteFault => 5,
            Status::NoMemory => 6,
            Status::Unrecorded => 9,
        }
    }
}
