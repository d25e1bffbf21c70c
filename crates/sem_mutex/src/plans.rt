//! What a call will do. It is decided before anything changes.

ghost use Rattle.std.specs.Prelude.{◌≡◌, Some};
ghost use Rattle.sem_mutex.specs.Calls.{take_deed, give_deed};
ghost use Rattle.sem_mutex.specs.Inside.{take_plan as take_plan_lem, give_plan as give_plan_lem};

use id_table::Ident;
use inheritance::Mutex;
use wind_base::Errno;
use wind_base::words::NO_WAIT;

// What a take will do.
#[derive(Clone, Copy)]
pub(crate) enum TakePlan {
    Declined(Errno),
    // the caller becomes the owner of this mutex
    Taken(Ident),
    // the caller, which owns this mutex, takes it once more
    Retaken(Ident),
    // the caller waits for this mutex
    Starved(Ident),
}

// What a give will do.
#[derive(Clone, Copy)]
pub(crate) enum GivePlan {
    Denied(Errno),
    // the caller still owns this mutex
    Lowered(Ident),
    // it is the caller's last give of this mutex
    GivenUp(Ident),
}

// What a take of this mutex, which has this id, will do.
pub(crate) fn take_plan(mutex: &Mutex, at: Ident, caller: Ident, timeout: u32) -> TakePlan
    ensures { result ≡ take_plan_lem at (take_deed caller timeout (Some mutex.now)) }
{
    let Some(owner) = mutex.owner else {
        return TakePlan::Taken(at);
    };
    if owner == caller {
        TakePlan::Retaken(at)
    } else if timeout == NO_WAIT {
        TakePlan::Declined(Errno::ObjUnavailable)
    } else {
        TakePlan::Starved(at)
    }
}

// What a give of this mutex, which has this id, will do.
pub(crate) fn give_plan(mutex: &Mutex, at: Ident, caller: Ident) -> GivePlan
    ensures { result ≡ give_plan_lem at (give_deed caller (Some mutex.now)) }
{
    let Some(owner) = mutex.owner else {
        return GivePlan::Denied(Errno::InvalidOperation);
    };
    if owner != caller {
        GivePlan::Denied(Errno::InvalidOperation)
    } else if mutex.depth > 1 {
        GivePlan::Lowered(at)
    } else {
        GivePlan::GivenUp(at)
    }
}
