//! What is counted of a task.

ghost use Rattle.std.specs.Prelude.{◌≡◌};
ghost use Rattle.trace_summary.specs.Adding.{counts_in as counts_in_lem, none as none_lem, plus as plus_lem};
ghost use Rattle.trace_summary.specs.Figures.{refuses as refuses_lem};

use board_trace::Happening;
use kernel_world::Reply;

/// What is counted of a task. Each number is at most 2^64 - 1.
#[derive(Clone, Copy, Debug, PartialEq, Eq)]
pub struct TaskCounts {
    /// Its steps: instructions, calls and exceptions.
    pub steps: u64,
    /// How often it ran after another task.
    pub switches: u64,
    /// Its kernel calls.
    pub calls: u64,
    /// Its calls that were refused.
    pub refusals: u64,
    /// Its exceptions.
    pub exceptions: u64,
}

/// Nothing was counted.
pub(crate) fn none() -> TaskCounts
    ensures { result ≡ none_lem }
{
    TaskCounts {
        steps: 0,
        switches: 0,
        calls: 0,
        refusals: 0,
        exceptions: 0,
    }
}

// One for a refusal, and 0 for any other reply.
fn refuses(reply: Reply) -> u64
    ensures { result ≡ refuses_lem reply }
{
    match reply {
        Reply::Refusal(_) => 1,
        Reply::Answer(_) | Reply::Later | Reply::Gone => 0,
    }
}

// What a call adds that is answered like this.
fn call_counts(reply: Reply) -> TaskCounts
    ensures { result ≡ record none_lem { steps = 1; calls = 1; refusals = refuses_lem reply } }
{
    TaskCounts {
        steps: 1,
        calls: 1,
        refusals: refuses(reply),
        ..none()
    }
}

/// What a happening adds for the task that it is told of.
pub(crate) fn counts_in(happening: &Happening) -> TaskCounts
    ensures { result ≡ counts_in_lem happening.now }
{
    match happening {
        Happening::Instructions { count, .. } => TaskCounts {
            steps: *count,
            ..none()
        },
        Happening::Called { reply, .. } => call_counts(*reply),
        Happening::Exception { .. } => TaskCounts {
            steps: 1,
            exceptions: 1,
            ..none()
        },
        Happening::Runs { .. } => TaskCounts {
            switches: 1,
            ..none()
        },
        _ => none(),
    }
}

impl TaskCounts {
    /// The sums of both, each at most 2^64 - 1.
    pub(crate) fn plus(self, more: TaskCounts) -> TaskCounts
        ensures { result ≡ plus_lem self more }
    {
        TaskCounts {
            steps: self.steps.saturating_add(more.steps),
            switches: self.switches.saturating_add(more.switches),
            calls: self.calls.saturating_add(more.calls),
            refusals: self.refusals.saturating_add(more.refusals),
            exceptions: self.exceptions.saturating_add(more.exceptions),
        }
    }
}
