//! Where a task is among the live tasks.

ghost use Rattle.id_table.specs.Records.{StandsAt};
ghost use Rattle.wind_core.specs.State.{Lives, task_id};

use id_table::Ident;
use wind_core::Kern;

/// The place of a live task; places count from 0 by rising id.
pub(crate) fn place_of(k: &Kern, who: Ident) -> u32
    requires { Lives k.now who }
    ensures { StandsAt task_id k.now.tasks who result }
{
    k.facts();
    let number = who.get();
    let mut low = 0;
    let mut high = k.live();
    while low < high {
        let middle = low + (high - low) / 2;
        if k.task_at(middle).id.get() < number {
            low = middle + 1;
        } else {
            high = middle;
        }
    }
    low
}
