//! The words of a case.

use std::alloc::{AllocError, AllocFailed, Global};
use wind_base::{Name, NoMemory};

/// Why a case can't be played.
#[derive(Clone, Copy, Debug, PartialEq, Eq, Drop)]
pub enum Trouble {
    /// The line is invalid.
    Unreadable,
    /// Host memory ran out.
    NoMemory,
}

impl From<AllocError> for Trouble {
    fn from(_: AllocError) -> Trouble {
        Trouble::NoMemory
    }
}

impl<T: Drop> From<AllocFailed<T>> for Trouble {
    fn from(_: AllocFailed<T>) -> Trouble {
        Trouble::NoMemory
    }
}

impl From<NoMemory> for Trouble {
    fn from(_: NoMemory) -> Trouble {
        Trouble::NoMemory
    }
}

/// The number that a word writes in hexadecimal digits.
pub fn number(word: &str) -> Result<u32, Trouble> {
    u32::from_str_radix(word, 16).or(Err(Trouble::Unreadable))
}

/// A word, as a name.
pub fn name(alloc: Global, word: &str) -> Result<Name, Trouble> {
    Name::new(alloc, word.as_bytes()).or(Err(Trouble::Unreadable))
}
