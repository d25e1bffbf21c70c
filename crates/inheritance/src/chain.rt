//! Which task a task waits for.

ghost use Rattle.std.specs.Prelude.{◌≡◌};
ghost use Rattle.inheritance.specs.Reach.{boss as boss_lem};

use crate::mutex::Mutex;
use id_table::sides::OBJECT;
use id_table::{Ident, Table};
use wind_core::Kern;

/// The live owner of the inversion-safe mutex that the task waits for. None if there is none.
pub fn boss(k: &Kern, mutexes: &Table<Mutex>, who: Ident) -> Option<Ident>
    ensures { result ≡ boss_lem k.now.tasks mutexes.now.rows who }
{
    let place = k.task(who)?.wait?;
    if place.side != OBJECT {
        return None;
    }
    let mutex = mutexes.get(place.id)?;
    if !mutex.inversion_safe {
        return None;
    }
    let owner = mutex.owner?;
    if k.task(owner).is_some() {
        Some(owner)
    } else {
        None
    }
}
