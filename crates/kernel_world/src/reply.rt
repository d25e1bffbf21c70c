//! How the caller of a kernel call is answered.

use wind_base::Errno;
use wind_base::words::OK;

/// How the caller of a kernel call is answered.
#[derive(Clone, Copy, Debug, PartialEq, Eq)]
pub enum Reply {
    /// At once, with this word in r3.
    Answer(u32),
    /// As a refusal, with an error number.
    Refusal(Errno),
    /// At the end of its wait.
    Later,
    /// Not at all, because the caller has ended.
    Gone,
}

/// The reply of a call that is done.
pub const DONE: Reply = Reply::Answer(OK);
