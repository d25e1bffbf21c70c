//! What follows from the definitions of the machine and of a trace for the owners of mutexes.

ghost use Rattle.wind_owners.specs.Owners.{OwnerLaw, OwnersLaw};

use wind_machine::loading_law;

/// The law of owners: from a state with the machine's invariant, a step changes who owns a mutex
/// only if it is a semTake, semGive or semDelete of this mutex.
pub fn owner_law()
    ensures { OwnerLaw }
{
    loading_law();
}

/// The law of owners: in each step from a state with the invariant, who owns a mutex after the step
/// follows from who owned it before and the step's lines. So a mutex gets or loses an owner only
/// where a line says so.
pub fn owners_law()
    ensures { OwnersLaw }
{
    owner_law();
}
