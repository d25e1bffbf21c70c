//! Kinds of semaphores and their options.

ghost use Rattle.std.specs.Prelude.{◌≡◌};
ghost use Rattle.wind_base.specs.SemBits.{read_options, allowed_bits, is_priority, is_delete_safe, is_inversion_safe};

use bitflags::{Flag, Flags, bitflag_items};

/// The kinds of semaphores.
#[derive(Clone, Copy, Debug, PartialEq, Eq)]
pub enum SemKind {
    /// It is full or empty.
    Binary,
    /// It has a count.
    Counting,
    /// For mutual exclusion: the task that takes it owns it.
    Mutex,
}

/// The options of a semaphore: a set of bits (VxWorks 5.4 Reference Manual, semBLib, semCLib and semMLib).
#[derive(Clone, Copy, Debug, PartialEq, Eq)]
pub struct SemOptions(u32);

bitflag_items! {
    impl SemOptions: u32 {
        // SEM_Q_PRIORITY: tasks wait in order of priority; without it, in order of arrival
        const PRIORITY = 1;
        // SEM_DELETE_SAFE: the mutex's owner can't be deleted
        const DELETE_SAFE = 4;
        // SEM_INVERSION_SAFE: the mutex's owner is at least as urgent as the tasks that wait for it
        const INVERSION_SAFE = 8;
    }
}

impl Flags for SemOptions {
    ghost use Rattle.std.specs.Prelude.{⊤, ◌∷◌, [], codes};

    type Bits = u32;

    ghost exact = { ⊤ };

    ghost table = { (codes "PRIORITY", 1) ∷ (codes "DELETE_SAFE", 4) ∷ (codes "INVERSION_SAFE", 8) ∷ [] };

    ghost set_of = { λ o. o.0 };

    fn flags<'a>() -> &'a [Flag<SemOptions>] {
        SemOptions::FLAGS
    }

    fn bits(&self) -> u32 {
        self.0
    }

    fn from_bits_retain(bits: u32) -> SemOptions {
        SemOptions(bits)
    }
}

// The options that a kind of semaphore allows.
fn allowed(kind: SemKind) -> SemOptions
    ensures { result.0 ≡ allowed_bits kind }
{
    match kind {
        SemKind::Binary | SemKind::Counting => SemOptions::PRIORITY,
        SemKind::Mutex => {
            let (priority, delete_safe) = (SemOptions::PRIORITY.0, SemOptions::DELETE_SAFE.0);
            SemOptions(priority | delete_safe | SemOptions::INVERSION_SAFE.0)
        }
    }
}

impl SemOptions {
    /// The options with this number. None if it has a bit that the kind doesn't allow, or has 8
    /// without 1. A binary or counting semaphore allows only 1; a mutex allows 1, 4 and 8.
    pub fn read(n: u32, kind: SemKind) -> Option<SemOptions>
        ensures { result ≡ read_options n kind }
    {
        let options = SemOptions(n);
        if !allowed(kind).contains(options)
            || options.is_inversion_safe() && !options.is_priority()
        {
            None
        } else {
            Some(options)
        }
    }

    /// Whether tasks wait in order of priority. If not, they wait in order of arrival.
    pub fn is_priority(&self) -> bool
        ensures { result ≡ is_priority self.now }
    {
        self.contains(SemOptions::PRIORITY)
    }

    /// Whether each take of the mutex protects its owner from deletion.
    pub fn is_delete_safe(&self) -> bool
        ensures { result ≡ is_delete_safe self.now }
    {
        self.contains(SemOptions::DELETE_SAFE)
    }

    /// Whether the mutex's owner inherits the priorities of the tasks that wait for it.
    pub fn is_inversion_safe(&self) -> bool
        ensures { result ≡ is_inversion_safe self.now }
    {
        self.contains(SemOptions::INVERSION_SAFE)
    }
}
