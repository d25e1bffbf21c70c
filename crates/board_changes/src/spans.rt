//! The spans of a run.

ghost use Rattle.std.specs.Prelude.{◌≡◌, ◌++◌, [], OnOk, map, option_copied, true};
ghost use Rattle.board_changes.specs.Spans.{all_ended, all_ends, all_kept, closed, ended, ends, goes_on as goes_on_lem, is_kept as is_kept_lem, observed, open_task, going_after as going_after_lem, view_of as view_of_lem};
ghost use Rattle.board_changes.specs.Views.{task_id};
ghost use Rattle.board_changes.specs.Walks.{HasPassed};

use crate::TaskView;
use crate::look::{Look, is_same, look_of};
use crate::walk::{Identified, START, Walk, found};
use id_table::Ident;
use std::alloc::Global;
use std::marker::Model;
use std::mem;
use wind_base::NoMemory;

/// A span that goes on. Times are board times.
#[derive(Clone, Copy, Debug, PartialEq, Eq)]
pub struct Open {
    /// The task.
    pub who: Ident,
    /// What it does.
    pub look: Look,
    /// Since when.
    pub from: u128,
}

impl Identified for Open {
    ghost number = { open_task };

    fn ident(&self) -> Ident {
        self.who
    }
}

/// A span that has ended.
#[derive(Clone, Copy, Debug, PartialEq, Eq)]
pub struct Span {
    /// The task.
    pub who: Ident,
    /// What it did.
    pub look: Look,
    /// From when.
    pub from: u128,
    /// Until when; it is after `from`.
    pub to: u128,
}

/// The spans of a run: those that go on, and those that have ended.
#[derive(Drop)]
pub struct Spans {
    going: Vec<Open>,
    next: Vec<Open>,
    done: Vec<Span>,
}

impl Model for Spans {
    ghost use Rattle.board_changes.specs.Spans.{SpanState};

    ghost Value = { SpanState };

    ghost view = { λ s. record { going = s.going.items; done = s.done.items } };
}

// A moment of the run: board time, the live tasks, and the task that runs, if one does.
#[derive(Clone, Copy)]
struct Moment<'a> {
    time: u128,
    views: &'a [TaskView],
    runner: Option<Ident>,
}

// Whether a span goes on with this view: it is of the same task, which looks the same.
fn is_kept(span: &Open, runner: Option<Ident>, view: &TaskView) -> bool
    ensures { result ≡ is_kept_lem runner span.now view.now }
{
    span.who == view.id && is_same(span.look, look_of(runner, view))
}

// Whether every span goes on, and no other begins: the tasks are the same, by rising id, and look
// the same.
fn are_kept(going: &[Open], moment: &Moment) -> bool
    ensures { result ≡ true → all_kept moment.now.runner 0 going.now moment.now.views.now ≡ true }
{
    if going.len() != moment.views.len() {
        return false;
    }
    let mut last = 0;
    for place in 0..going.len() {
        let who = going[place].who.get();
        if who <= last || !is_kept(&going[place], moment.runner, &moment.views[place]) {
            return false;
        }
        last = who;
    }
    true
}

// The view of a task, sought from where the walk stands.
fn view_of<'a>(views: &'a [TaskView], walk: &mut Walk, who: Ident) -> Option<&'a TaskView>
    requires { HasPassed task_id views.now walk.old.place walk.old.bound }
    ensures value { option_copied result ≡ view_of_lem views.now who }
    ensures passed { HasPassed task_id views.now walk.new.place walk.new.bound }
{
    found(views, walk, who)
}

// The span of a task goes on if its look is the same as before; else a new one begins.
fn goes_on(going: Option<&Open>, who: Ident, time: u128, look: &Look) -> Open
    ensures { result ≡ goes_on_lem (option_copied going.entry) who time look.now }
{
    match going {
        Some(span) if is_same(span.look, *look) => *span,
        _ => Open {
            who,
            look: *look,
            from: time,
        },
    }
}

// The span of a task after a moment, sought among those before it from where the walk stands.
fn going_after(going: &[Open], walk: &mut Walk, moment: &Moment, view: &TaskView) -> Open
    requires { HasPassed open_task going.now walk.old.place walk.old.bound }
    ensures value { result ≡ going_after_lem going.now moment.now.time moment.now.runner view.now }
    ensures passed { HasPassed open_task going.now walk.new.place walk.new.bound }
{
    let look = look_of(moment.runner, view);
    goes_on(found(going, walk, view.id), view.id, moment.time, &look)
}

// Collects the spans of the tasks after a moment.
fn collect_going(next: &mut Vec<Open>, going: &[Open], moment: &Moment) -> Result<(), NoMemory>
    requires { next.old.items ≡ [] }
    ensures { OnOk result (next.new.items
        ≡ map (going_after_lem going.now moment.now.time moment.now.runner) moment.now.views.now) }
{
    let mut walk = START;
    for view in moment.views {
        let span = going_after(going, &mut walk, moment, view);
        if next.push(span).is_err() {
            return Err(NoMemory);
        }
    }
    Ok(())
}

// Adds a span that has ended, unless it is one of no time.
fn add_ended(done: &mut Vec<Span>, span: &Open, time: u128) -> Result<(), NoMemory>
    ensures { OnOk result (done.new.items ≡ done.old.items ++ ended span.now time) }
{
    if span.from >= time {
        return Ok(());
    }
    let span = Span {
        who: span.who,
        look: span.look,
        from: span.from,
        to: time,
    };
    if done.push(span).is_err() {
        return Err(NoMemory);
    }
    Ok(())
}

// Adds the span, if it ends at this moment.
fn add_end(
    done: &mut Vec<Span>,
    view: Option<&TaskView>,
    moment: &Moment,
    span: &Open,
) -> Result<(), NoMemory>
    ensures { OnOk result (done.new.items
        ≡ done.old.items ++ ends (option_copied view.entry) moment.now.runner moment.now.time span.now) }
{
    match view {
        Some(view) if is_same(span.look, look_of(moment.runner, view)) => Ok(()),
        _ => add_ended(done, span, moment.time),
    }
}

// Adds the spans that end at a moment.
fn add_ends(done: &mut Vec<Span>, moment: &Moment, going: &[Open]) -> Result<(), NoMemory>
    ensures { OnOk result (done.new.items
        ≡ done.old.items ++ all_ends moment.now.views.now moment.now.runner moment.now.time going.now) }
{
    let mut walk = START;
    for span in going {
        let view = view_of(moment.views, &mut walk, span.who);
        add_end(done, view, moment, span)?;
    }
    Ok(())
}

// Ends every span.
fn add_all_ended(done: &mut Vec<Span>, time: u128, going: &[Open]) -> Result<(), NoMemory>
    ensures { OnOk result (done.new.items ≡ done.old.items ++ all_ended time going.now) }
{
    for span in going {
        add_ended(done, span, time)?;
    }
    Ok(())
}

impl Spans {
    /// No spans.
    pub fn new(alloc: Global) -> Spans
        ensures { result ≡ record { going = []; done = [] } }
    {
        Spans {
            going: Vec::new(alloc),
            next: Vec::new(alloc),
            done: Vec::new(alloc),
        }
    }

    /// A moment of the run: board time, the live tasks, and the task that runs, if one does.
    pub fn observe(
        &mut self,
        time: u128,
        views: &[TaskView],
        runner: Option<Ident>,
    ) -> Result<(), NoMemory>
        ensures { OnOk result (self.new ≡ observed self.old time views.now runner) }
    {
        let moment = Moment {
            time,
            views,
            runner,
        };
        if are_kept(&self.going, &moment) {
            return Ok(());
        }
        self.next.clear();
        collect_going(&mut self.next, &self.going, &moment)?;
        add_ends(&mut self.done, &moment, &self.going)?;
        mem::swap(&mut self.going, &mut self.next);
        Ok(())
    }

    /// The run has ended at this time, and so do all spans.
    pub fn close(&mut self, time: u128) -> Result<(), NoMemory>
        ensures { OnOk result (self.new ≡ closed self.old time) }
    {
        add_all_ended(&mut self.done, time, &self.going)?;
        self.going.clear();
        Ok(())
    }

    /// The spans that have ended, in the order in which they ended.
    pub fn done(&self) -> &[Span]
        ensures { result.now ≡ self.now.done }
    {
        &self.done
    }

    /// Forgets the spans that have ended.
    pub fn forget_done(&mut self)
        ensures { self.new ≡ record self.old { done = [] } }
    {
        self.done.clear();
    }
}
