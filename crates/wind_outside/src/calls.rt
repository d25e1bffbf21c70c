//! Calls that fail by their number.

ghost use Rattle.std.specs.Prelude.{◌≡◌, ◌≤◌, ◌⊎◌, ◌↔◌, IsTrue, Contains};
ghost use Rattle.wind_outside.specs.Calls.{call_counted, one_more};
ghost use Rattle.wind_outside.specs.Counts.{Rose};

use std::marker::Model;

/// The numbers, from 1 on, of the calls that fail; the number of calls made; and the number of
/// failed ones. Both counts stop at 2^64 - 1.
#[derive(Drop)]
pub(crate) struct Calls {
    failing: Vec<u64>,
    made: u64,
    faults: u64,
}

impl Model for Calls {
    ghost use Rattle.wind_outside.specs.Calls.{CallLog};

    ghost Value = { CallLog };

    ghost view = { λ c. record { failing = c.failing.items; made = c.made; faults = c.faults } };
}

impl Calls {
    /// A log without calls.
    pub(crate) fn new(failing: Vec<u64>) -> Calls
        ensures { result ≡ record { failing = failing.items; made = 0; faults = 0 } }
    {
        Calls {
            failing,
            made: 0,
            faults: 0,
        }
    }

    /// Counts a call, and returns whether it fails: if its number is listed, or if `refused` is
    /// set.
    pub(crate) fn count(&mut self, refused: bool) -> bool
        ensures fails { IsTrue result ↔ (Contains self.old.failing (one_more self.old.made) ⊎ IsTrue refused) }
        ensures after { self.new ≡ call_counted self.old result }
        ensures rose { IsTrue result → Rose self.old.faults self.new.faults }
        ensures never_falls { self.old.faults ≤ self.new.faults }
    {
        self.made = self.made.saturating_add(1);
        let fails = refused || self.failing.contains(&self.made);
        if fails {
            self.faults = self.faults.saturating_add(1);
        }
        fails
    }
}
