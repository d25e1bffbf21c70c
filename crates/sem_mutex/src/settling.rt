//! Priorities are settled at the end of a step.

ghost use Rattle.std.specs.Prelude.{◌≡◌};
ghost use Rattle.inheritance.specs.Mutexes.{both};
ghost use Rattle.inheritance.specs.Reach.{raised};
ghost use Rattle.sem_mutex.specs.Kept.{KeepsMutexes, IsSettled, FewSinces};

use crate::mutexes::Mutexes;
use inheritance::settle;
use wind_base::Profile;
use wind_core::Kern;

impl Mutexes {
    /// Settles priorities: under profile 2 each task gets the most urgent normal priority of itself
    /// and of the tasks that wait for it. Under profile 1 the calls have raised priorities already,
    /// and nothing changes.
    pub fn settle(&self, k: &mut Kern)
        requires kept { KeepsMutexes (both k.old self.now) }
        requires since { FewSinces k.old }
        ensures state { both k.new self.now ≡ raised (both k.old self.now) }
        ensures kept { KeepsMutexes (both k.new self.now) }
        ensures settled { IsSettled (both k.new self.now) }
    {
        k.facts();
        match self.profile {
            Profile::One => {}
            Profile::Two => settle(k, &self.table),
        }
    }
}
