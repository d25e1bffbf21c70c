//! The word that describes the state of a task.

ghost use Rattle.std.specs.Prelude.{◌≡◌, ◌≤◌, length};
ghost use Rattle.task_block.specs.Standing.{word_of};

use std::marker::Model;

/// A word of at most 10 bytes.
#[derive(Drop)]
pub struct Status10 {
    word: &'static str,
}

impl Model for Status10 {
    ghost use Rattle.std.specs.Prelude.{ℕ, List, ◌≤◌, length};

    ghost Value = { List ℕ };

    ghost view = { λ s. s.word.now };

    ghost invariant = { λ s. length s.word.now ≤ 10 };
}

impl Status10 {
    /// The word's bytes, at most 10.
    pub fn bytes(&self) -> &[u8]
        ensures value { result.now ≡ self.now }
        ensures short { length result.now ≤ 10 }
    {
        self.word.as_bytes()
    }
}

// The word for a task, by whether it waits for an object, has a tick at which it wakes, and is
// suspended.
pub(crate) fn word(waits: bool, wakes: bool, suspended: bool) -> Status10
    ensures { result ≡ word_of waits wakes suspended }
{
    let word = match (waits, wakes, suspended) {
        (false, false, false) => "READY",
        (false, false, true) => "SUSPEND",
        (false, true, false) => "DELAY",
        (false, true, true) => "DELAY+S",
        (true, false, false) => "PEND",
        (true, false, true) => "PEND+S",
        (true, true, false) => "PEND+T",
        (true, true, true) => "PEND+T+S",
    };
    Status10 { word }
}
