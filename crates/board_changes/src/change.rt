//! A change that a trace tells.

use crate::awaited::Awaited;
use id_table::Ident;
use wind_base::Pri;

/// A change between two views. Ticks are counts of ticks since the start.
#[derive(Clone, Copy, Debug, PartialEq, Eq)]
pub enum Change {
    /// A task is there that wasn't there before.
    Spawned {
        who: Ident,
        pri: Pri,
    },
    /// A task is gone.
    Deleted {
        who: Ident,
    },
    /// A task begins to wait; its wait times out at this tick, if at all.
    Waits {
        who: Ident,
        object: Awaited,
        until: Option<u64>,
    },
    /// A task begins to sleep until this tick.
    Sleeps {
        who: Ident,
        until: u64,
    },
    /// A task's wait ends with this result of its call.
    Served {
        who: Ident,
        object: Awaited,
        answer: u32,
    },
    /// A task's wait ends with the result ERROR and this error number.
    Failed {
        who: Ident,
        object: Awaited,
        errno: u32,
    },
    /// A task's wait ends without a result: the task repeats its call, or goes on with the console.
    GoesOn {
        who: Ident,
        object: Awaited,
    },
    /// A task's sleep ends.
    Wakes {
        who: Ident,
    },
    /// A task is suspended.
    Suspended {
        who: Ident,
    },
    /// A task is no longer suspended.
    Resumed {
        who: Ident,
    },
    /// A task's priority changes, by inheritance or because its normal priority was set to it.
    Priority {
        who: Ident,
        from: Pri,
        to: Pri,
        inherited: bool,
    },
    /// A task's normal priority is set, and its priority is another one.
    Normal {
        who: Ident,
        to: Pri,
    },
    /// A ready task goes after the others of its priority: its time slice ends, or it gives way.
    Yields {
        who: Ident,
    },
    /// A watchdog is started, and is due at this tick.
    Started {
        watchdog: Ident,
        due: u64,
    },
    /// A watchdog's tick has come, and it stops.
    Fired {
        watchdog: Ident,
    },
    /// A running watchdog stops before its tick.
    Cancelled {
        watchdog: Ident,
    },
    /// A module is there that wasn't there before.
    Loaded {
        id: Ident,
    },
    /// A module is gone.
    Unloaded {
        id: Ident,
    },
}
