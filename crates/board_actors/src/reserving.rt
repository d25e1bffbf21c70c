//! When reservations are dropped.

ghost use Rattle.std.specs.Prelude.{◌≡◌, true, false};
ghost use Rattle.wind_core.specs.State.{Lives};
ghost use Rattle.wind_core.specs.Moves.{unreserve};
ghost use Rattle.live_loading.specs.KernelWorldKept.{ReservedBy};
ghost use Rattle.board_actors.specs.StepStart.{if_other, without};
ghost use Rattle.wind_machine.specs.Reserving.{drop_others as drop_others_lem, drop_all as drop_all_lem};

use id_table::Ident;
use wind_core::Kern;

/// The task that ran last, if it is another one. No third task has a reservation.
pub(crate) fn other_last(kern: &Kern, who: Ident) -> Option<Ident>
    ensures { result ≡ if_other who kern.now.last }
{
    match kern.last() {
        Some(last) if last != who => Some(last),
        _ => None,
    }
}

// Whether a task lives and has a reservation.
#[tactic(auto, using(crate::proofs::Dropped::not_own, crate::proofs::Dropped::not_reserved))]
#[inline]
fn has_reservation(kern: &Kern, who: Ident) -> bool
    ensures live { result ≡ true → Lives kern.now who }
    ensures none { result ≡ false → unreserve kern.now who ≡ kern.now }
{
    kern.facts();
    match kern.task(who) {
        Some(task) => task.regs.reserve.is_some(),
        None => false,
    }
}

/// Drops the reservation of this task.
#[inline]
pub fn drop_own(kern: &mut Kern, who: Ident)
    ensures { kern.new ≡ unreserve kern.old who }
{
    if has_reservation(kern, who) {
        kern.unreserve(who);
    }
}

// Drops the reservation of this task, if one is given.
#[inline]
fn drop_of(kern: &mut Kern, holder: Option<Ident>)
    ensures { kern.new ≡ without kern.old holder }
{
    if let Some(last) = holder {
        drop_own(kern, last);
    }
}

/// Drops the reservations of all tasks except this one.
#[tactic(auto, using(crate::proofs::Dropped::dropped_others))]
#[inline]
pub(crate) fn drop_others(kern: &mut Kern, who: Ident)
    requires { ReservedBy kern.old.last kern.old }
    ensures { kern.new ≡ drop_others_lem kern.old who }
{
    let last = other_last(kern, who);
    drop_of(kern, last);
}

/// Drops the reservations of all tasks.
#[tactic(auto, using(crate::proofs::Dropped::dropped_all))]
pub fn drop_all(kern: &mut Kern)
    requires { ReservedBy kern.old.last kern.old }
    ensures { kern.new ≡ drop_all_lem kern.old }
{
    let last = kern.last();
    drop_of(kern, last);
}
