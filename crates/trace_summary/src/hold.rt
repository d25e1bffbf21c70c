//! Holds of a mutex: which task, from when, until when.

ghost use Rattle.std.specs.Prelude.{◌≡◌};
ghost use Rattle.trace_summary.specs.Holds.{begun as begun_lem, ended as ended_lem, hold_length, longer_of as longer_of_lem};
ghost use Rattle.trace_summary.specs.Longest.{longer_by};

/// A task that holds a mutex.
#[derive(Clone, Copy, Debug, PartialEq, Eq)]
pub struct Holding {
    /// The task's id.
    pub owner: u32,
    /// Since when, in board time.
    pub since: u128,
}

/// A time in which a task held a mutex.
#[derive(Clone, Copy, Debug, PartialEq, Eq)]
pub struct Hold {
    /// The task's id.
    pub owner: u32,
    /// From when, in board time.
    pub from: u128,
    /// Until when, in board time.
    pub to: u128,
}

impl Hold {
    /// How long it is.
    pub fn length(&self) -> u128
        ensures { result ≡ hold_length self.now }
    {
        self.to.saturating_sub(self.from)
    }
}

/// An owner comes to the mutex at this time, if there is one.
pub(crate) fn begun(owner: Option<u32>, time: u128) -> Option<Holding>
    ensures { result ≡ begun_lem owner time }
{
    match owner {
        Some(owner) => Some(Holding { owner, since: time }),
        None => None,
    }
}

/// A hold ends at this time, if there is one.
pub(crate) fn ended(holding: Option<Holding>, time: u128) -> Option<Hold>
    ensures { result ≡ ended_lem holding time }
{
    match holding {
        Some(holding) => Some(Hold {
            owner: holding.owner,
            from: holding.since,
            to: time,
        }),
        None => None,
    }
}

// A hold, or the longest of those before it, if none is longer.
fn longer_hold(hold: Hold, longest: Option<Hold>) -> Option<Hold>
    ensures { result ≡ longer_by hold_length hold longest }
{
    let Some(best) = longest else {
        return Some(hold);
    };
    if hold.length() <= best.length() {
        return Some(best);
    }
    Some(hold)
}

/// A hold, if there is one, or the longest of those before it, if none is longer.
pub(crate) fn longer_of(hold: Option<Hold>, longest: Option<Hold>) -> Option<Hold>
    ensures { result ≡ longer_of_lem hold longest }
{
    match hold {
        Some(hold) => longer_hold(hold, longest),
        None => longest,
    }
}
