//! The rules of a tick file that have future events.

ghost use Rattle.std.specs.Prelude.{◌≡◌, ◌<◌};
ghost use Rattle.tick_file.specs.Inside.{pending_at, moved_on as moved_on_lem, IsSound};

use crate::event::{Event, Rule};

/// A rule with future events. Rules are ordered by their next events.
#[derive(Clone, Copy)]
#[derive_where(PartialEq, Eq, PartialOrd, Ord)]
pub(crate) struct Pending {
    /// The board time of the next event.
    pub time: u64,
    /// The number of the line.
    pub line: u64,
    /// Which of the line's events is the next one, counted from 1.
    pub number: u64,
    /// The next event.
    #[derive_where(skip(EqHashOrd))]
    pub event: Event,
    /// How many events are left, with the next one.
    #[derive_where(skip(EqHashOrd))]
    pub left: u64,
    /// The board time between two events.
    #[derive_where(skip(EqHashOrd))]
    pub period: u64,
}

/// The rule of a line, before its first event.
pub(crate) fn at_start(line: u64, rule: Rule) -> Pending
    ensures { result ≡ pending_at line rule }
{
    match rule {
        Rule::At(time, event) => Pending {
            time,
            line,
            number: 1,
            event,
            left: 1,
            period: 0,
        },
        Rule::Every(period, count, event) => Pending {
            time: period,
            line,
            number: 1,
            event,
            left: count,
            period,
        },
    }
}

/// The rule after its next event, if that isn't the last one.
pub(crate) fn moved_on(rule: Pending) -> Pending
    requires sound { IsSound rule }
    requires more { 1 < rule.left }
    ensures { result ≡ moved_on_lem rule }
{
    Pending {
        time: rule.time + rule.period,
        number: rule.number + 1,
        left: rule.left - 1,
        ..rule
    }
}
