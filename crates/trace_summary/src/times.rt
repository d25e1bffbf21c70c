//! The longest times of each task.

ghost use Rattle.std.specs.Prelude.{◌≡◌, ◌++◌, ◌∷◌, [], OnOk};
ghost use Rattle.trace_summary.specs.Keeping.{KeepsTimes};
ghost use Rattle.trace_summary.specs.Times.{SpanLists, times_of};

use crate::response::{Responses, add_response, longest_response};
use crate::stretch::{Kind, Progress, Stretch, add_stretch, longest_stretch};
use board_changes::Span;
use std::alloc::Global;
use std::collections::HashMap;
use wind_base::NoMemory;

/// The longest times of a task.
#[derive(Clone, Copy, Debug)]
pub struct TaskTimes {
    /// Its longest wait, if it waited.
    pub wait: Option<Stretch>,
    /// The longest time that it was ready and another task ran.
    pub ready: Option<Stretch>,
    /// The longest time that its priority was inherited.
    pub inherited: Option<Stretch>,
    /// The longest time from the end of a wait until it ran, in board time.
    pub response: u128,
}

/// The longest times of each task in the spans that have ended.
#[derive(Drop)]
pub struct LongestTimes {
    waits: HashMap<u32, Progress>,
    ready: HashMap<u32, Progress>,
    inherited: HashMap<u32, Progress>,
    responses: HashMap<u32, Responses>,
}

impl LongestTimes {
    /// No span has ended.
    pub fn new(alloc: Global) -> LongestTimes
        ensures { KeepsTimes result (record { all = []; uninterrupted = [] }) }
    {
        LongestTimes {
            waits: HashMap::new(alloc),
            ready: HashMap::new(alloc),
            inherited: HashMap::new(alloc),
            responses: HashMap::new(alloc),
        }
    }

    // A span has ended.
    fn add_span(&mut self, span: &Span) -> Result<(), NoMemory>
        ensures { OnOk result ((before : SpanLists) → KeepsTimes self.old before
            → KeepsTimes self.new (record before { all = before.all ++ span.now ∷ [] })) }
    {
        add_stretch(&mut self.waits, Kind::Wait, span)?;
        add_stretch(&mut self.inherited, Kind::Inherited, span)?;
        add_response(&mut self.responses, span)
    }

    /// Spans have ended, in this order.
    pub fn add(&mut self, spans: &[Span]) -> Result<(), NoMemory>
        ensures { OnOk result ((before : SpanLists) → KeepsTimes self.old before
            → KeepsTimes self.new (record before { all = before.all ++ spans.now })) }
    {
        for span in spans {
            self.add_span(span)?;
        }
        Ok(())
    }

    /// Spans have ended, in this order, if an interrupt routine leaves the running task running.
    pub fn add_uninterrupted(&mut self, spans: &[Span]) -> Result<(), NoMemory>
        ensures { OnOk result ((before : SpanLists) → KeepsTimes self.old before
            → KeepsTimes self.new (record before { uninterrupted = before.uninterrupted ++ spans.now })) }
    {
        for span in spans {
            add_stretch(&mut self.ready, Kind::Ready, span)?;
        }
        Ok(())
    }

    /// The longest times of a task.
    pub(crate) fn of(&self, who: u32) -> TaskTimes
        ensures { (spans : SpanLists) → KeepsTimes self.now spans → result ≡ times_of spans who }
    {
        TaskTimes {
            wait: longest_stretch(&self.waits, who),
            ready: longest_stretch(&self.ready, who),
            inherited: longest_stretch(&self.inherited, who),
            response: longest_response(&self.responses, who),
        }
    }
}
