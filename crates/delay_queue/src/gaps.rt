//! Gaps: the ticks between the wakes of neighbouring tasks.

ghost use Rattle.std.specs.Prelude.{◌≡◌, ◌+◌, ◌-◌, ◌<◌, ◌≤◌, ◌^◌, true, length, IsSomeAnd};
ghost use Rattle.std.specs.Option.{ForSome};
ghost use Rattle.linked_lists.specs.Chains.{chain_at, value_of};
ghost use Rattle.delay_queue.specs.Inside.{IsPosition, last_left, total, with_gap};

use linked_lists::{IdLists, Ident};

/// The number of the only list.
pub(crate) const LIST: usize = 0;

// The position of a wake: before the task `next`, and `left` ticks after the wake of the task before.
#[derive(Drop)]
pub(crate) struct Position {
    pub(crate) next: Option<Ident>,
    pub(crate) left: u64,
}

// The first task with a wake after this one, and the ticks from the wake of the task before it to
// this one.
fn search(tasks: &IdLists<u64>, wake: u64) -> Position
    requires { length tasks.now.chains ≡ 1 }
    ensures { IsPosition (chain_at tasks.now.chains 0) wake result.next result.left }
{
    tasks.facts();
    let mut next = tasks.first(LIST);
    let mut left = wake;
    for _passed in 0..tasks.len() {
        let Some(id) = next else {
            return Position { next: None, left };
        };
        let gap = *tasks.value(id);
        if gap > left {
            return Position { next, left };
        }
        left -= gap;
        next = tasks.next(id);
    }
    Position { next, left }
}

// The same. `last` is the wake of the last task, or 0: a wake that isn't before it goes to the end.
pub(crate) fn position_of(tasks: &IdLists<u64>, last: u64, wake: u64) -> Position
    requires one { length tasks.now.chains ≡ 1 }
    requires last { last ≡ total (chain_at tasks.now.chains 0) }
    ensures { IsPosition (chain_at tasks.now.chains 0) wake result.next result.left }
{
    if wake >= last {
        return Position {
            next: None,
            left: wake - last,
        };
    }
    search(tasks, wake)
}

// The wake of the last task after a task with this gap was removed: `was_last` says that it was the
// last.
pub(crate) fn last_without(last: u64, was_last: bool, gap: u64) -> u64
    requires { was_last ≡ true → gap ≤ last }
    ensures { result ≡ last_left last was_last gap }
{
    if was_last { last - gap } else { last }
}

// Shortens the gap before a task, if there is a task.
pub(crate) fn lessen(tasks: &mut IdLists<u64>, next: Option<Ident>, ticks: u64)
    requires { ForSome next (λ id. IsSomeAnd (value_of tasks.old.chains id) (λ gap. ticks ≤ gap)) }
    ensures { tasks.new ≡ with_gap tasks.old next (λ gap. gap - ticks) }
{
    if let Some(id) = next {
        let gap = *tasks.value(id);
        tasks.set(id, gap - ticks);
    }
}

// Lengthens the gap before a task, if there is a task.
pub(crate) fn lengthen(tasks: &mut IdLists<u64>, next: Option<Ident>, ticks: u64)
    requires { ForSome next (λ id. IsSomeAnd (value_of tasks.old.chains id) (λ gap. gap + ticks < 2 ^ 64)) }
    ensures { tasks.new ≡ with_gap tasks.old next (λ gap. gap + ticks) }
{
    if let Some(id) = next {
        let gap = *tasks.value(id);
        tasks.set(id, gap + ticks);
    }
}
