//! How a run ends that isn't given up.

ghost use Rattle.std.specs.Prelude.{◌≡◌};
ghost use Rattle.sweep_run.specs.Runs.{finish_of as finish_of_lem};

use wind_session::{RunEnd, Status};

/// How a run ended.
#[derive(Clone, Copy, Debug, PartialEq, Eq)]
pub enum Finish {
    /// No step is left.
    NoStepLeft,
    /// The limit of steps is reached.
    LimitReached,
}

/// How a run ended, or the status of one that was given up.
pub(crate) fn finish_of(end: RunEnd) -> Result<Finish, Status>
    ensures { result ≡ finish_of_lem end }
{
    match end {
        RunEnd::Quiet => Ok(Finish::NoStepLeft),
        RunEnd::Limit => Ok(Finish::LimitReached),
        RunEnd::ReadFault | RunEnd::WriteFault | RunEnd::NoMemory => Err(Status::from(end)),
    }
}
