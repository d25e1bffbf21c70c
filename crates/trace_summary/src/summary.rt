//! The figures of a run.

ghost use Rattle.std.specs.Prelude.{◌≡◌};
ghost use Rattle.trace_summary.specs.Figures.{share as share_lem};

use crate::counts::TaskCounts;
use crate::times::TaskTimes;
use crate::usage::Usage;
use wind_base::ShortName;

/// A task of a run, with its figures.
#[derive(Drop)]
pub struct TaskSummary {
    /// The task's id.
    pub id: u32,
    /// Its name.
    pub name: ShortName,
    /// What was counted of it.
    pub counts: TaskCounts,
    /// Its longest times.
    pub times: TaskTimes,
}

/// The figures of a run.
#[derive(Drop)]
pub struct Summary {
    /// Board time at its end.
    pub time: u128,
    /// Its steps.
    pub steps: u64,
    /// Its ticks.
    pub ticks: u64,
    /// The kernel calls of tasks and interrupt routines.
    pub calls: u64,
    /// How long nobody ran, in board time.
    pub idle: u64,
    /// Its tasks, also those that are gone, in the order in which they appear.
    pub tasks: Vec<TaskSummary>,
    /// How mutexes, queues and device slots were used, in the order in which they appear.
    pub uses: Vec<Usage>,
}

/// The share that some steps have in all steps, in tenths of a percent, rounded down.
pub fn share(steps: u64, all: u64) -> u64
    ensures { result ≡ share_lem steps all }
{
    if all == 0 {
        return 0;
    }
    let tenths = u128::from(steps) * 1000 / u128::from(all);
    tenths.min(1000) as u64
}
