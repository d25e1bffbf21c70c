//! An input and a folder in memory.

ghost use Rattle.std.specs.Prelude.{◌≡◌, ◌≢◌, ◌≤◌, ◌++◌, None, ℕ, List, IsTrue, IfSome, IsSomeAnd, OnOk, OnErr};
ghost use Rattle.wind_outside.specs.Counts.{Rose};
ghost use Rattle.wind_outside.specs.Files.{with_file};
ghost use Rattle.live_session.specs.Folder.{IsMoved};

use crate::aside::aside_name;
use crate::input::{Input, InputPart, part_len};
use crate::record_folder::{Flush, Presence, RecordFolder};
use std::alloc::{AllocError, Global};
use std::collections::BTreeMap;
use wind_outside::{Fetched, Put};

/// The numbers, from 1 on, of the calls that fail; the number of calls made; and the number of
/// failed ones.
#[derive(Drop)]
pub struct Calls {
    failing: Vec<u64>,
    made: u64,
    faults: u64,
}

impl Calls {
    // No call yet.
    fn new(failing: Vec<u64>) -> Calls
        ensures { result.faults ≡ 0 }
    {
        Calls {
            failing,
            made: 0,
            faults: 0,
        }
    }

    // Counts a call, and returns whether it fails.
    fn count(&mut self) -> bool
        ensures rose { IsTrue result → Rose self.old.faults self.new.faults }
        ensures never_falls { self.old.faults ≤ self.new.faults }
    {
        self.made = self.made.saturating_add(1);
        let fails = self.failing.contains(&self.made);
        if fails {
            self.note_fault();
        }
        fails
    }

    // Counts a fault.
    fn note_fault(&mut self)
        ensures rose { Rose self.old.faults self.new.faults }
        ensures never_falls { self.old.faults ≤ self.new.faults }
    {
        self.faults = self.faults.saturating_add(1);
    }
}

/// An input in memory, which tells its bytes. The calls with the listed numbers fail.
#[derive(Drop)]
pub struct MemInput {
    left: Vec<u8>,
    calls: Calls,
}

impl MemInput {
    /// An input of these bytes. `failing` lists the numbers, from 1 on, of the calls that fail.
    pub fn new(bytes: Vec<u8>, failing: Vec<u64>) -> MemInput
        ensures { result.left.items ≡ bytes.items }
    {
        MemInput {
            left: bytes,
            calls: Calls::new(failing),
        }
    }
}

impl Input for MemInput {
    ghost use Rattle.std.specs.Prelude.{Some};

    ghost left = { λ i. Some i.left.items };

    ghost faults = { λ i. i.calls.faults };

    fn next_part(&mut self, alloc: Global) -> InputPart {
        if self.calls.count() {
            return InputPart::Failed;
        }
        let len = part_len(&self.left);
        if len == 0 {
            return InputPart::End;
        }
        let Ok(part) = Vec::from_slice(alloc, &self.left[..len]) else {
            return InputPart::NoMemory;
        };
        let Ok(rest) = Vec::from_slice(alloc, &self.left[len..]) else {
            return InputPart::NoMemory;
        };
        self.left = rest;
        InputPart::Bytes(part)
    }
}

/// A folder in memory, which tells its files. The calls with the listed numbers fail.
#[derive(Drop)]
pub struct MemRecordFolder {
    files: BTreeMap<String, Vec<u8>>,
    calls: Calls,
}

impl MemRecordFolder {
    ghost use Rattle.live_session.specs.MemFolder.{files_of};

    /// A folder without files. `failing` lists the numbers, from 1 on, of the calls that fail.
    pub fn new(alloc: Global, failing: Vec<u64>) -> MemRecordFolder {
        MemRecordFolder {
            files: BTreeMap::new(alloc),
            calls: Calls::new(failing),
        }
    }

    // Puts a file among the others, instead of one with that name.
    fn put_file(&mut self, alloc: Global, name: &str, bytes: &[u8]) -> Result<(), AllocError>
        ensures ok { OnOk result ((other : List ℕ) → files_of self.new other
            ≡ with_file (files_of self.old) name.now bytes.now other) }
        ensures err { OnErr result (files_of self.new ≡ files_of self.old) }
        ensures calls { self.new.calls ≡ self.old.calls }
    {
        let name = name.to_string(alloc)?;
        let bytes = Vec::from_slice(alloc, bytes)?;
        self.files.insert(name, bytes)?;
        Ok(())
    }

    // Takes the file with this name away, if it is there.
    fn take_file(&mut self, name: &str)
        ensures gone { files_of self.new name.now ≡ None }
        ensures others { (other : List ℕ) → other ≢ name.now → files_of self.new other ≡ files_of self.old other }
        ensures calls { self.new.calls ≡ self.old.calls }
    {
        let _ = self.files.remove(name);
    }

    // Sets a file aside, if it is there.
    fn move_file(&mut self, alloc: Global, name: &str) -> Result<(), AllocError>
        ensures ok { OnOk result (IsMoved (files_of self.old) (files_of self.new) name.now) }
        ensures err { OnErr result (files_of self.new ≡ files_of self.old) }
        ensures calls { self.new.calls ≡ self.old.calls }
    {
        let Some(bytes) = self.files.get(name) else {
            return Ok(());
        };
        let bytes = Vec::from_slice(alloc, bytes)?;
        let aside = aside_name(alloc, name)?;
        self.put_file(alloc, &aside, &bytes)?;
        self.take_file(name);
        Ok(())
    }

    // The bytes of a file with more at its end; none if there is no such file, or if memory ran out.
    fn longer(&self, alloc: Global, name: &str, bytes: &[u8]) -> Option<Vec<u8>>
        ensures { IfSome result (λ text. IsSomeAnd (files_of self.now name.now) (λ own. text.items ≡ own ++ bytes.now)) }
    {
        let own = self.files.get(name)?;
        let Ok(mut text) = Vec::from_slice(alloc, own) else {
            return None;
        };
        match text.extend_from_slice(bytes) {
            Ok(()) => Some(text),
            Err(AllocError) => None,
        }
    }

    /// The bytes of the file with this name.
    pub fn file(&self, name: &str) -> Option<&[u8]> {
        self.files.get(name).map(|bytes| bytes.as_slice())
    }
}

impl RecordFolder for MemRecordFolder {
    ghost use Rattle.live_session.specs.MemFolder.{files_of};
    ghost use Rattle.std.specs.Prelude.{Some};

    ghost files = { λ f. Some (files_of f) };

    ghost faults = { λ f. f.calls.faults };

    fn make(&mut self, _name: &str) -> Put {
        if self.calls.count() {
            return Put::Failed;
        }
        Put::Done
    }

    fn has(&mut self, name: &str) -> Presence {
        if self.calls.count() {
            return Presence::Failed;
        }
        match self.files.get(name) {
            Some(_) => Presence::There,
            None => Presence::Absent,
        }
    }

    fn replace(&mut self, alloc: Global, name: &str, bytes: &[u8], _flush: Flush) -> Put {
        if self.calls.count() {
            return Put::Failed;
        }
        match self.put_file(alloc, name, bytes) {
            Ok(()) => Put::Done,
            Err(AllocError) => {
                self.calls.note_fault();
                Put::Failed
            }
        }
    }

    fn append(&mut self, alloc: Global, name: &str, bytes: &[u8]) -> Put {
        if self.calls.count() {
            return Put::Failed;
        }
        let Some(text) = self.longer(alloc, name, bytes) else {
            self.calls.note_fault();
            return Put::Failed;
        };
        match self.put_file(alloc, name, &text) {
            Ok(()) => Put::Done,
            Err(AllocError) => {
                self.calls.note_fault();
                Put::Failed
            }
        }
    }

    fn set_aside(&mut self, alloc: Global, name: &str) -> Put {
        if self.calls.count() {
            return Put::Failed;
        }
        match self.move_file(alloc, name) {
            Ok(()) => Put::Done,
            Err(AllocError) => {
                self.calls.note_fault();
                Put::Failed
            }
        }
    }

    fn read(&mut self, alloc: Global, name: &str, limit: u32) -> Fetched {
        if self.calls.count() {
            return Fetched::Failed;
        }
        let Some(bytes) = self.files.get(name) else {
            return Fetched::Missing;
        };
        if bytes.len() > limit as usize {
            return Fetched::TooLong;
        }
        match Vec::from_slice(alloc, bytes) {
            Ok(bytes) => Fetched::Found(bytes),
            Err(AllocError) => Fetched::NoMemory,
        }
    }

    fn clear_beside(&mut self, _alloc: Global, _name: &str) -> Put {
        if self.calls.count() {
            return Put::Failed;
        }
        Put::Done
    }
}
