//! Safe sections: other tasks can't delete a task that is in one (VxWorks 5.4 Reference Manual,
//! taskSafe and taskUnsafe).

ghost use Rattle.std.specs.Prelude.{◌≡◌, ◌<◌, ◌+◌, ◌^◌, Some, None, IfOk, IfErr};
ghost use Rattle.wind_core.specs.State.{Lives, task_of};
ghost use Rattle.task_safety.specs.Safety.{safe_of, make_safe, lessen as lessen_lem, unsafe_refusal};

use id_table::sides::DELETION;
use id_table::{Ident, Place};
use wind_base::Errno;
use wind_core::Kern;

// The number of safe sections that the task is in. 0 if it isn't live.
fn safe_count(k: &Kern, who: Ident) -> u64
    ensures { result ≡ safe_of (task_of k.now.tasks who) }
{
    match k.task(who) {
        Some(task) => task.safe,
        None => 0,
    }
}

/// Begins one more safe section of the task.
pub fn safe(k: &mut Kern, who: Ident)
    requires live { Lives k.old who }
    requires count { safe_of (task_of k.old.tasks who) + 1 < 2 ^ 64 }
    ensures { k.new ≡ make_safe k.old who }
{
    let count = safe_count(k, who);
    k.set_safe(who, count + 1);
}

/// Ends `n` safe sections of the task, or all of them if it is in fewer. If that ends its last one,
/// the tasks that wait to delete it go on, in their order.
pub fn lessen(k: &mut Kern, who: Ident, n: u64)
    requires live { Lives k.old who }
    requires since { k.old.next_since < 2 ^ 63 }
    ensures { k.new ≡ lessen_lem k.old who n }
{
    let count = safe_count(k, who);
    k.set_safe(who, count.saturating_sub(n));
    if 0 < count && count <= n {
        let place = Place {
            side: DELETION,
            id: who,
        };
        k.release_all(place);
    }
}

/// The same, at the task's own request.
///
/// # Errors
///
/// `NotSafe` if the task isn't in a safe section. Then nothing changes.
pub fn unsafe_by(k: &mut Kern, who: Ident, n: u64) -> Result<(), Errno>
    requires live { Lives k.old who }
    requires since { k.old.next_since < 2 ^ 63 }
    ensures ok { IfOk result (λ _. (unsafe_refusal (task_of k.old.tasks who) ≡ None)
        × (k.new ≡ lessen_lem k.old who n)) }
    ensures err { IfErr result (λ e. (unsafe_refusal (task_of k.old.tasks who) ≡ Some e) × (k.new ≡ k.old)) }
{
    if safe_count(k, who) == 0 {
        return Err(Errno::NotSafe);
    }
    lessen(k, who, n);
    Ok(())
}
