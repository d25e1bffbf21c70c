//! Strings copied out of RAM.

ghost use Rattle.std.specs.Prelude.{◌≡◌, ◌≤◌, length, take};
ghost use Rattle.wind_base.specs.Limits.{longest_string};

use std::marker::Model;
use wind_base::limits::STRING_BYTES;

// The length in bytes of the longest string, with its zero.
pub(crate) const STRING_ROOM: usize = STRING_BYTES as usize + 1;

/// A copy of the bytes of a string in RAM, at most 1,023, without its terminating zero. A contract
/// sees the list of its bytes.
#[derive(Drop)]
pub struct RamString {
    bytes: [u8; STRING_ROOM],
    length: usize,
}

impl Model for RamString {
    ghost use Rattle.std.specs.Prelude.{List, ℕ, ◌≤◌, take};
    ghost use Rattle.wind_base.specs.Limits.{longest_string};

    ghost Value = { List ℕ };

    ghost view = { λ s. take s.length s.bytes };

    ghost invariant = { λ s. s.length ≤ longest_string };
}

impl RamString {
    // The first `count` of these bytes.
    pub(crate) fn of_prefix(bytes: [u8; STRING_ROOM], count: usize) -> RamString
        requires { count ≤ longest_string }
        ensures { result ≡ take count bytes }
    {
        RamString {
            bytes,
            length: count,
        }
    }

    /// The bytes of the string.
    pub fn bytes(&self) -> &[u8]
        ensures value { result.now ≡ self.now }
        ensures short { length result.now ≤ longest_string }
    {
        &self.bytes[..self.length]
    }
}
