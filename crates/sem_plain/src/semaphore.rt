//! One semaphore.

ghost use Rattle.std.specs.Prelude.{◌≡◌, ◌+◌, ◌<◌, ◌^◌};
ghost use Rattle.wind_base.specs.Limits.{greatest_word};
ghost use Rattle.sem_plain.specs.State.{may_hold as may_hold_lem};
ghost use Rattle.sem_plain.specs.Calls.{counted_down, counted_up, count_after_give as count_after_give_lem};

use wind_base::{SemKind, SemOptions};

/// A binary or counting semaphore.
#[derive(Drop)]
pub struct Semaphore {
    /// Binary or counting.
    pub kind: SemKind,
    /// The options given at its creation.
    pub options: SemOptions,
    /// How many times it can be taken without waiting: 0 or 1 for a binary semaphore, 0 to
    /// 4,294,967,295 for a counting one.
    pub count: u32,
}

/// Whether a semaphore of this kind can have this count: 0 or 1 for a binary semaphore, any for a
/// counting one. A mutex has no count.
pub fn may_hold(kind: SemKind, count: u32) -> bool
    ensures { result ≡ may_hold_lem kind count }
{
    match kind {
        SemKind::Binary => count <= 1,
        SemKind::Counting => true,
        SemKind::Mutex => false,
    }
}

// Counts a take: the count falls by 1.
pub(crate) fn count_down(semaphore: &mut Semaphore)
    ensures { semaphore.new ≡ counted_down semaphore.old }
{
    semaphore.count = semaphore.count.saturating_sub(1);
}

// The count after a give: 1 for a binary semaphore, one more for a counting one.
fn count_after_give(kind: SemKind, count: u32) -> u32
    requires { count + 1 < 2 ^ 32 }
    ensures { result ≡ count_after_give_lem kind count }
{
    match kind {
        SemKind::Binary => 1,
        SemKind::Counting | SemKind::Mutex => count + 1,
    }
}

// Counts a give that no task waits for: a binary semaphore's count becomes 1, and a counting one's
// rises by 1.
pub(crate) fn count_up(semaphore: &mut Semaphore)
    requires { semaphore.old.count ≡ greatest_word → ⊥ }
    ensures { semaphore.new ≡ counted_up semaphore.old }
{
    semaphore.count = count_after_give(semaphore.kind, semaphore.count);
}
