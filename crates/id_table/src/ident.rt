//! The ids of kernel objects.

ghost use Rattle.std.specs.Prelude.{◌≡◌, ◌<◌, ◌≤◌, SomeIff};
ghost use Rattle.wind_base.specs.Limits.{greatest_id};
ghost use Rattle.id_table.specs.Idents.{shell_id};

use std::marker::Model;
use wind_base::limits::IDS;

// The number of the first id, which the shell's task gets.
const SHELL: u32 = 1;

/// The id of a kernel object, from 1 to 1,048,576.
#[derive(Clone, Copy, Debug, PartialEq, Eq)]
pub struct Ident {
    number: u32,
}

impl Model for Ident {
    ghost use Rattle.std.specs.Prelude.{ℕ, ◌<◌, ◌≤◌};
    ghost use Rattle.wind_base.specs.Limits.{greatest_id};

    ghost Value = { ℕ };

    ghost view = { λ i. i.number };

    ghost invariant = { λ i. (0 < i.number) × (i.number ≤ greatest_id) };

    ghost inverse = { λ n. record { number = n } };
}

impl Ident {
    /// The id with this number. None if it is 0 or above 1,048,576.
    pub fn new(n: u32) -> Option<Ident>
        ensures { SomeIff result ((0 < n) × (n ≤ greatest_id)) n }
    {
        if n > 0 && n <= IDS {
            Some(Ident { number: n })
        } else {
            None
        }
    }

    /// The id of the shell's task.
    #[inline(always)]
    pub fn shell() -> Ident
        ensures { result ≡ shell_id }
    {
        Ident { number: SHELL }
    }

    /// Its number.
    pub fn get(self) -> u32
        ensures same { result ≡ self }
        ensures least { 0 < result }
        ensures greatest { result ≤ greatest_id }
    {
        self.number
    }
}

/// Where a task waits: an object, and one of its sides.
#[derive(Clone, Copy, Debug, PartialEq, Eq)]
pub struct Place {
    /// The side of the object, one of `sides`.
    pub side: u8,
    /// The object.
    pub id: Ident,
}
