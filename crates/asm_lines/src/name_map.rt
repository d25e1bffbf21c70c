//! A map from names to numbers.

ghost use Rattle.std.specs.Prelude.{◌≡◌, ℕ, List, Some, None, OnOk, is_some, if◌then◌else◌, bytes_eq};
ghost use Rattle.asm_lines.specs.Drafts.{number_at};

use std::alloc::{AllocError, Global};
use std::collections::BTreeMap;

/// A map from names to numbers.
#[derive(Drop)]
pub struct NameMap<'a> {
    /// The entries.
    pub kept: BTreeMap<&'a [u8], u32>,
}

impl<'a> NameMap<'a> {
    /// An empty map.
    #[tactic(auto, unfolding(crate::specs::Drafts::number_at))]
    pub fn new(alloc: Global) -> NameMap<'a>
        ensures { (q : List ℕ) → number_at result q ≡ None }
    {
        NameMap {
            kept: BTreeMap::new(alloc),
        }
    }

    /// The number of a name; None if it has none.
    #[tactic(auto, unfolding(crate::specs::Drafts::number_at))]
    pub fn get(&self, name: &[u8]) -> Option<u32>
        ensures { result ≡ number_at self.now name.now }
    {
        self.kept.get(name).copied()
    }

    /// Whether a name has a number.
    pub fn has(&self, name: &[u8]) -> bool
        ensures { result ≡ is_some (number_at self.now name.now) }
    {
        self.get(name).is_some()
    }

    /// Gives a name this number, in place of any number that it had. The error is that host memory ran out.
    pub fn set(&mut self, name: &'a [u8], number: u32) -> Result<(), AllocError>
        ensures { OnOk result ((q : List ℕ) → number_at self.new q
            ≡ (if bytes_eq name.now q then Some number else number_at self.old q)) }
    {
        match self.kept.insert(name, number) {
            Ok(_) => Ok(()),
            Err(_) => Err(AllocError),
        }
    }
}
