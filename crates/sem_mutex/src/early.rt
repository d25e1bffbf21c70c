//! Whether all counters are far from overflow.

ghost use Rattle.std.specs.Prelude.{◌≡◌, ◌<◌, ◌^◌, true, false};
ghost use Rattle.std.specs.List.{All};
ghost use Rattle.inheritance.specs.Mutexes.{both};
ghost use Rattle.sem_mutex.specs.Kept.{IsEarly};

use crate::mutexes::Mutexes;
use id_table::Table;
use inheritance::Mutex;
use wind_core::Kern;

// A count below this is far from overflow.
const EARLY: u64 = 1 << 61;

// Whether each task's count of safe sections is far from overflow.
fn are_rarely_safe(k: &Kern) -> bool
    ensures yes { result ≡ true → All (λ t. t.safe < 2 ^ 61) k.now.tasks }
    ensures no { result ≡ false → All (λ t. t.safe < 2 ^ 61) k.now.tasks → ⊥ }
{
    for at in 0..k.live() {
        let task = k.task_at(at);
        if task.safe >= EARLY {
            return false;
        }
    }
    true
}

// Whether each mutex's count of takes is far from overflow.
fn are_shallow(table: &Table<Mutex>) -> bool
    ensures yes { result ≡ true → All (λ r. r.1.depth < 2 ^ 61) table.now.rows }
    ensures no { result ≡ false → All (λ r. r.1.depth < 2 ^ 61) table.now.rows → ⊥ }
{
    for at in 0..table.len() {
        let mutex = table.value_at(at);
        if mutex.depth >= EARLY {
            return false;
        }
    }
    true
}

impl Mutexes {
    /// Whether the order numbers, the ticks, and the counts of safe sections and of takes are all
    /// far from overflow. Each call requires this only of the counters that it raises.
    pub fn is_early(&self, k: &Kern) -> bool
        ensures yes { result ≡ true → IsEarly (both k.now self.now) }
        ensures no { result ≡ false → IsEarly (both k.now self.now) → ⊥ }
    {
        k.next_since() < EARLY
            && k.ticks() < EARLY
            && are_rarely_safe(k)
            && are_shallow(&self.table)
    }
}
