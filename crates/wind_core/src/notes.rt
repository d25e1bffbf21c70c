//! What the kernel notes of all its tasks.

ghost use Rattle.std.specs.Prelude.{◌≡◌, ◌&&◌, ◌==◌, true};
ghost use Rattle.wind_core.specs.Notes.{AllNormal, NoneHolds};

use crate::kern::Kern;
use task_block::Task;

// Whether the note and this task say that each task has its normal priority.
pub(crate) fn normal_too(note: bool, task: &Task) -> bool
    ensures { result ≡ (note && (task.now.pri == task.now.normal)) }
{
    note && task.pri == task.normal
}

// Whether the note and this task say that no task owns an inversion-safe mutex.
pub(crate) fn holds_none_too(note: bool, task: &Task) -> bool
    ensures { result ≡ (note && (task.now.held == 0)) }
{
    note && task.held == 0
}

impl Kern {
    /// `true` guarantees that each task has its normal priority. `false` guarantees nothing.
    pub fn surely_all_normal(&self) -> bool
        ensures { result ≡ true → AllNormal self.now.tasks }
    {
        self.all_normal
    }

    /// `true` guarantees that no task owns an inversion-safe mutex. `false` guarantees nothing.
    pub fn surely_none_holds(&self) -> bool
        ensures { result ≡ true → NoneHolds self.now.tasks }
    {
        self.none_holds
    }

    /// Notes that each task has its normal priority.
    pub fn note_all_normal(&mut self)
        requires { AllNormal self.old.tasks }
        ensures { self.new ≡ self.old }
    {
        self.all_normal = true;
    }

    /// Notes that no task owns an inversion-safe mutex.
    pub fn note_none_holds(&mut self)
        requires { NoneHolds self.old.tasks }
        ensures { self.new ≡ self.old }
    {
        self.none_holds = true;
    }
}
