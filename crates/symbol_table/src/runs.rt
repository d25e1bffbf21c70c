//! Runs of symbols of one group.

ghost use Rattle.std.specs.Prelude.{◌≡◌, ◌≤◌, ◌<◌, length, vec_capacity};
ghost use Rattle.wind_base.specs.Limits.{most_symbols};
ghost use Rattle.symbol_table.specs.Runs.{AreRuns, IsRun, HasNone};

use crate::symbol::Symbol;

/// A position from which on all symbols up to position `n` have the same group.
fn run_to(list: &[Symbol], runs: &[u32], n: usize) -> u32
    requires within { n < length list.now }
    requires counted { n ≤ length runs.now }
    requires few { length list.now ≤ most_symbols }
    requires runs { AreRuns list.now runs.now }
    ensures { IsRun list.now result n }
{
    if n > 0 && list[n - 1].group == list[n].group {
        runs[n - 1]
    } else {
        n as u32
    }
}

/// Adds the runs to the symbols that have none.
pub(crate) fn add_runs(list: &[Symbol], runs: &mut Vec<u32>)
    requires few { length list.now ≤ most_symbols }
    requires room { length list.now ≤ vec_capacity runs.old }
    requires runs { AreRuns list.now runs.old.items }
    ensures runs { AreRuns list.now runs.new.items }
    ensures count { length runs.new.items ≡ length list.now }
    ensures capacity { vec_capacity runs.new ≡ vec_capacity runs.old }
{
    for n in runs.len()..list.len() {
        let run = run_to(list, runs, n);
        runs.push_reserved(run);
    }
}

/// A position before which no symbol has the group. It goes down from run to run, so a group of one
/// run costs the number of runs, and the position is that of its first symbol.
pub(crate) fn first_of(list: &[Symbol], runs: &[u32], group: u32) -> usize
    requires count { length runs.now ≡ length list.now }
    requires runs { AreRuns list.now runs.now }
    ensures within { result ≤ length list.now }
    ensures none { HasNone group list.now 0 result }
{
    let mut first = list.len();
    let mut at = list.len();
    while at != 0 {
        let start = runs[at - 1] as usize;
        if list[at - 1].group == group {
            first = start;
        }
        at = start;
    }
    first
}
