//! A folder in memory.

ghost use Rattle.std.specs.Prelude.{◌≡◌, ◌≤◌, ◌↔◌, ℕ, List, [], ◌∷◌, Some, None, IfSome, OnOk, OnErr, Contains};
ghost use Rattle.wind_outside.specs.Calls.{call_counted};
ghost use Rattle.wind_outside.specs.Counts.{Rose};
ghost use Rattle.wind_outside.specs.Files.{IsFetchOf, IsWithin, is_failed, with_file};
ghost use Rattle.wind_outside.specs.Requests.{GrowsBy, request_of};
ghost use Rattle.wind_outside.specs.declared.folder.Fetched.TheVariants as fetched;

use crate::calls::Calls;
use crate::{Fetched, Folder};
use std::alloc::Global;
use std::collections::BTreeMap;
use wind_base::NoMemory;

/// A folder in memory, which tells its files. The fetches with the listed numbers fail.
#[derive(Drop)]
pub struct MemFolder {
    alloc: Global,
    files: BTreeMap<String, Vec<u8>>,
    calls: Calls,
}

impl MemFolder {
    ghost use Rattle.wind_outside.specs.MemFolder.{files_of, calls_of};

    /// A folder without files. `failing` lists the numbers, from 1 on, of the calls of `fetch` that
    /// fail.
    pub fn new(alloc: Global, failing: Vec<u64>) -> MemFolder
        ensures files { (name : List ℕ) → files_of result name ≡ None }
        ensures calls { calls_of result ≡ record { failing = failing.items; made = 0; faults = 0 } }
    {
        MemFolder {
            alloc,
            files: BTreeMap::new(alloc),
            calls: Calls::new(failing),
        }
    }

    /// Adds a file, or replaces the file with that name.
    pub fn add(&mut self, name: &str, bytes: Vec<u8>) -> Result<(), NoMemory>
        ensures ok { OnOk result ((other : List ℕ) → files_of self.new other
            ≡ with_file (files_of self.old) name.now bytes.items other) }
        ensures err { OnErr result ((other : List ℕ) → files_of self.new other ≡ files_of self.old other) }
        ensures calls { calls_of self.new ≡ calls_of self.old }
    {
        let name = name.to_string(self.alloc)?;
        if self.files.insert(name, bytes).is_err() {
            return Err(NoMemory);
        }
        Ok(())
    }
}

impl Folder for MemFolder {
    ghost use Rattle.wind_outside.specs.MemFolder.{files_of, calls_of};
    ghost use Rattle.std.specs.Prelude.{Some, None};

    ghost files = { λ f. Some (files_of f) };

    ghost requests = { λ _. None };

    ghost faults = { λ f. (calls_of f).faults };

    fn fetch(&mut self, alloc: Global, name: &str, limit: u32) -> Fetched
        ensures kept { Some (files_of self.new) ≡ Some (files_of self.old) }
        ensures answers { IfSome (Some (files_of self.old)) (λ held. IsFetchOf (held name.now) limit result) }
        ensures within { IsWithin limit result }
        ensures requested { GrowsBy None None (request_of name.now limit result ∷ []) }
        ensures failed { result ≡ fetched.Failed → Rose (calls_of self.old).faults (calls_of self.new).faults }
        ensures never_falls { (calls_of self.old).faults ≤ (calls_of self.new).faults }

        ensures listed { (result ≡ fetched.Failed) ↔ Contains (calls_of self.old).failing (calls_of self.new).made }
        ensures counted { calls_of self.new ≡ call_counted (calls_of self.old) (is_failed result) }
    {
        if self.calls.count(false) {
            return Fetched::Failed;
        }
        let Some(bytes) = self.files.get(name) else {
            return Fetched::Missing;
        };
        if bytes.len() > limit as usize {
            return Fetched::TooLong;
        }
        match Vec::from_slice(alloc, bytes) {
            Ok(bytes) => Fetched::Found(bytes),
            Err(_) => Fetched::NoMemory,
        }
    }
}

#[cfg(test)]
mod tests {
    use super::*;
    use std::test::Fail;

    #[test]
    fn keeps_files_with_ample_memory(rt: HostRuntime) -> Result<(), Fail> {
        let alloc = rt.alloc();
        let mut folder = MemFolder::new(alloc, [2].to_vec(alloc)?);
        folder.add("a", b"old".to_vec(alloc)?).or(Err("memory"))?;
        folder.add("a", b"new".to_vec(alloc)?).or(Err("memory"))?;
        match folder.fetch(alloc, "a", 3) {
            Fetched::Found(bytes) => assert_eq!(rt; bytes.as_slice(), b"new".as_slice()),
            _ => assert!(rt; false, "not found"),
        }
        assert!(rt; matches!(folder.fetch(alloc, "a", 3), Fetched::Failed));
        assert!(rt; matches!(folder.fetch(alloc, "a", 2), Fetched::TooLong));
        assert!(rt; matches!(folder.fetch(alloc, "b", 3), Fetched::Missing));
        Ok(())
    }
}
