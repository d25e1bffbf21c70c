//! How a session ends.

ghost use Rattle.std.specs.Prelude.{◌≡◌};

use crate::run::RunEnd;
use board_player::Board;
use wind_base::NoMemory;
use wind_outside::Slots;

/// The files that a session names.
#[derive(Clone, Copy, Debug, PartialEq, Eq)]
pub enum Which {
    /// The console file.
    Console,
    /// The tick file.
    Ticks,
}

/// The status of a session: how it ended.
#[derive(Clone, Copy, Debug, PartialEq, Eq)]
pub enum Status {
    /// The run ended because no step was left.
    Quiet,
    /// The arguments are invalid, or `--help` was given.
    Usage,
    /// A file doesn't exist.
    Absent(Which),
    /// The limit of steps was reached.
    Limit,
    /// Reading failed.
    ReadFault,
    /// Writing failed.
    WriteFault,
    /// Host memory ran out.
    NoMemory,
    /// A line of the tick file is invalid; this is the number of the first one, counted from 1.
    BadTicks(u64),
    /// A file is too long.
    TooLong(Which),
}

impl Status {
    ghost use Rattle.wind_session.specs.Status.{status_number};

    /// The exit status of the program.
    pub fn number(self) -> u8
        ensures { result ≡ status_number self }
    {
        match self {
            Status::Quiet => 0,
            Status::Usage => 1,
            Status::Absent(_) => 2,
            Status::Limit => 3,
            Status::ReadFault => 4,
            Status::WriteFault => 5,
            Status::NoMemory => 6,
            Status::BadTicks(_) => 7,
            Status::TooLong(_) => 8,
        }
    }
}

/// The status of a session whose run ended so.
impl From<RunEnd> for Status {
    ghost use Rattle.wind_session.specs.Headline.{status_of};

    ghost from_gives = { λ end s. s ≡ status_of end };

    fn from(end: RunEnd) -> Status {
        match end {
            RunEnd::Quiet => Status::Quiet,
            RunEnd::Limit => Status::Limit,
            RunEnd::ReadFault => Status::ReadFault,
            RunEnd::WriteFault => Status::WriteFault,
            RunEnd::NoMemory => Status::NoMemory,
        }
    }
}

impl From<NoMemory> for Status {
    ghost use Rattle.wind_session.specs.declared.ending.Status.TheVariants as status;

    ghost from_gives = { λ _ s. s ≡ status.NoMemory };

    fn from(_error: NoMemory) -> Status {
        Status::NoMemory
    }
}

/// What is left of the board.
#[derive(Drop)]
pub enum Stand {
    /// No board was booted; the devices as they were.
    NotBooted(Slots),
    /// The board, as the run left it.
    Booted(Board),
}

/// How a session ended, and what is left of the board.
#[derive(Drop)]
pub struct Ending {
    /// The status.
    pub status: Status,
    /// The devices or the board.
    pub stand: Stand,
}
