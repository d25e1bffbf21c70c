//! The hashes of symbols.

ghost use Rattle.std.specs.Prelude.{◌≡◌};
ghost use Rattle.symbol_table.specs.Chains.{name_hash, value_hash, hash_in};

use crate::links::{Key, hash_name, hash_value};

/// The hashes of a symbol, of 16 bits each.
#[derive(Clone, Copy, Drop)]
pub(crate) struct Hashes {
    pub(crate) name: u32,
    pub(crate) value: u32,
}

impl Hashes {
    /// The hashes of a name and a value.
    pub(crate) fn new(name: &[u8], value: u32) -> Hashes
        ensures { result ≡ record { name = name_hash name.now; value = value_hash value } }
    {
        Hashes {
            name: hash_name(name),
            value: hash_value(value),
        }
    }

    /// The hash by name, or by value.
    pub(crate) fn by(self, key: Key) -> u32
        ensures { result ≡ hash_in key self }
    {
        match key {
            Key::Name => self.name,
            Key::Value => self.value,
        }
    }
}
