//! Priorities.

ghost use Rattle.std.specs.Prelude.{◌≡◌, ◌≤◌, SomeIff};
ghost use Rattle.wind_base.specs.Limits.{least_urgent};

use crate::limits::LEAST_URGENT;
use std::marker::Model;

/// A priority, from 0 (the most urgent) to 255.
#[derive(Clone, Copy, Debug, PartialEq, Eq)]
pub struct Pri {
    number: u32,
}

impl Model for Pri {
    ghost use Rattle.std.specs.Prelude.{ℕ, ◌≤◌};
    ghost use Rattle.wind_base.specs.Limits.{least_urgent};

    ghost Value = { ℕ };

    ghost view = { λ p. p.number };

    ghost invariant = { λ p. p.number ≤ least_urgent };

    ghost inverse = { λ n. record { number = n } };
}

impl Pri {
    /// The priority with this number. None if it is above 255.
    pub fn new(n: u32) -> Option<Pri>
        ensures { SomeIff result (n ≤ least_urgent) n }
    {
        if n <= LEAST_URGENT {
            Some(Pri { number: n })
        } else {
            None
        }
    }

    /// The priority's number, from 0 to 255.
    pub fn get(self) -> u32
        ensures same { result ≡ self }
        ensures greatest { result ≤ least_urgent }
    {
        self.number
    }
}
