//! What a call will do. It is decided before anything changes.

use id_table::Ident;
use wind_base::Errno;

// What a take will do.
#[derive(Clone, Copy)]
pub(crate) enum TakePlan {
    Declined(Errno),
    // the count of this semaphore falls by 1
    Taken(Ident),
    // the caller waits for this semaphore
    Starved(Ident),
}

// What a give will do.
#[derive(Clone, Copy)]
pub(crate) enum GivePlan {
    Denied(Errno),
    // this task, the first that waits, gets the semaphore
    PassedOn(Ident),
    // no task waits, and the count of this semaphore rises
    Counted(Ident),
}
