//! What follows from the definitions alone.

ghost use Rattle.isr_watch.specs.Laws.{IdsLaw, KeptLaw, LinkLaw};

/// The law of ids: if the id of each watchdog is below a number, it still is after each call. A
/// start raises the number of the next start by at most 1.
pub fn ids_law()
    ensures { IdsLaw }
{}

/// The law of the watchdogs' invariant, which each call keeps: at most 256 live, their ids rise,
/// and no routine is listed unless one is active.
pub fn kept_law()
    ensures { KeptLaw }
{}

/// The law of returns: no call but `Watch::set_return` changes the address to which a routine
/// returns.
pub fn link_law()
    ensures { LinkLaw }
{}
