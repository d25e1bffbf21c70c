//! A module, and which of its words were executed.

ghost use Rattle.std.specs.Prelude.{◌≡◌, ◌≤◌, ◌^◌, ◌-◌, ◌/◌, ◌==◌, ◌&&◌, IfOk, Some, None, length, if◌then◌else◌};
ghost use Rattle.trace_coverage.specs.Covered.{is_word_among, text_start, text_words, unexecuted, with_word};

use id_table::Ident;
use module_loader::LoadedModule;
use std::alloc::Global;
use std::marker::Model;
use wind_base::{Name, NoMemory};

/// The size of a word in bytes.
const WORD_BYTES: u32 = 4;

/// A module, and which words of its text segment were executed.
#[derive(Drop)]
pub(crate) struct Covered {
    id: Ident,
    name: Name,
    start: u32,
    executed: Vec<bool>,
}

impl Model for Covered {
    ghost use Rattle.std.specs.Prelude.{◌≤◌, ◌<◌, ◌^◌, length};
    ghost use Rattle.trace_coverage.specs.Covered.{CoveredState};

    ghost Value = { CoveredState };

    ghost view = { λ m. record { id = m.id; name = m.name; start = m.start; executed = m.executed.items } };

    ghost invariant = { λ m. (length m.executed.items ≤ 2 ^ 30) × (m.start < 2 ^ 32) };
}

impl Covered {
    /// A module before any of its words is executed.
    pub(crate) fn new(alloc: Global, id: Ident, module: &LoadedModule) -> Result<Covered, NoMemory>
        ensures { IfOk result (λ m. m ≡ unexecuted (id, module.now)) }
    {
        let start = module.segments[0].addr;
        let words = (module.segments[0].size / WORD_BYTES) as usize;
        Ok(Covered {
            id,
            name: module.name.copied(alloc)?,
            start,
            executed: vec![in alloc; false; words]?,
        })
    }

    /// Its id.
    pub(crate) fn id(&self) -> Ident
        ensures { result ≡ self.now.id }
    {
        self.id
    }

    /// Its name.
    pub(crate) fn name(&self) -> &[u8]
        ensures { result.now ≡ self.now.name }
    {
        self.name.bytes()
    }

    /// The address of its first word.
    pub(crate) fn start(&self) -> u32
        ensures { result ≡ self.now.start }
    {
        self.start
    }

    /// For each of its words, whether it was executed. There are at most 2^30.
    pub(crate) fn executed(&self) -> &[bool]
        ensures words { result.now ≡ self.now.executed }
        ensures few { length result.now ≤ 2 ^ 30 }
    {
        &self.executed
    }

    /// A module has its text segment.
    pub(crate) fn has_text_of(&self, module: &LoadedModule) -> bool
        ensures { result ≡ (text_start module.now == self.now.start
            && text_words module.now == length self.now.executed) }
    {
        let text = module.segments[0];
        text.addr == self.start && (text.size / WORD_BYTES) as usize == self.executed.len()
    }

    // The place of the word at this address, if it is one of its words.
    fn place_of(&self, at: u32) -> Option<usize>
        ensures { result ≡ (if is_word_among self.now.start (length self.now.executed) at
            then Some ((at - self.now.start) / 4) else None) }
    {
        if at < self.start {
            return None;
        }
        let offset = at - self.start;
        let place = (offset / WORD_BYTES) as usize;
        if offset % WORD_BYTES == 0 && place < self.executed.len() {
            Some(place)
        } else {
            None
        }
    }

    /// The word at this address was executed, if it is one of its words.
    pub(crate) fn execute(&mut self, at: u32)
        ensures { self.new ≡ with_word at self.old }
    {
        if let Some(place) = self.place_of(at) {
            self.executed[place] = true;
        }
    }
}
