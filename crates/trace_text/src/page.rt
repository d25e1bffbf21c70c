//! A page of lines, in which consecutive instructions of one task or routine are joined.

ghost use Rattle.std.specs.Prelude.{◌≡◌, ◌<◌, ◌≤◌, ◌+◌, ◌++◌, ◌^◌, ℕ, List, [], true, false, is_some, length, OnOk, IfOk};
ghost use Rattle.board_trace.specs.Runs.{Line, with_line};
ghost use Rattle.trace_text.specs.Forms.{Gained, HasLines, outcome_state};
ghost use Rattle.trace_text.specs.Pages.{Ends, IsGrowing, count_in, count_of, grown, is_instructions, line_of, waiting_line};

use crate::form::{LineForm, Outcome};
use crate::lines::Moment;
use board_trace::{Happening, same_actor};
use kernel_world::Actor;
use std::alloc::Global;
use std::marker::Model;
use wind_base::{NoMemory, ShortName};

// Consecutive instructions of one task or routine, with the time and the number of the step that
// made the first.
#[derive(Drop)]
struct Instructions {
    who: Actor,
    count: u64,
    time: u128,
    step: u64,
    name: ShortName,
}

/// The end of the text of a run's lines, in a form. Instructions wait for further ones of the same
/// task or routine before they are a line.
#[derive(Drop)]
pub struct Page<F> {
    form: F,
    text: Vec<u8>,
    growing: Option<Instructions>,
}

impl<F> Model for Page<F> {
    ghost use Rattle.trace_text.specs.Pages.{PageState};

    ghost Value = { PageState };

    ghost view = { λ p. record { text = p.text.items; growing = p.growing } };
}

// Instructions that wait from now on.
fn waiting(who: Actor, count: u64, time: u128, step: u64, name: &[u8]) -> Instructions
    requires { length name.now ≤ 31 }
    ensures { line_of result
        ≡ record { time = time; step = step; name = name.now; what = Happening.Instructions who count } }
{
    Instructions {
        who,
        count,
        time,
        step,
        name: ShortName::cut(name),
    }
}

// Instructions join those that wait, if they are of the same task or routine.
fn grow(growing: &mut Option<Instructions>, who: &Actor, count: u64) -> bool
    requires { count_in growing.old + count < 2 ^ 64 }
    ensures joined { result ≡ true
        → grown (waiting_line growing.old) (Happening.Instructions who.now count) ≡ waiting_line growing.new }
    ensures waits { result ≡ true → is_some (waiting_line growing.new) ≡ true }
    ensures count { result ≡ true → count_in growing.new ≡ count_in growing.old + count }
    ensures apart { result ≡ false
        → is_some (grown (waiting_line growing.old) (Happening.Instructions who.now count)) ≡ false }
    ensures kept { result ≡ false → growing.new ≡ growing.old }
{
    match growing {
        Some(waiting) if same_actor(waiting.who, *who) => {
            waiting.count += count;
            true
        }
        _ => false,
    }
}

// Adds the line of instructions that waited.
fn add_waiting<F: LineForm>(
    form: &mut F,
    text: &mut Vec<u8>,
    waiting: Option<Instructions>,
) -> Result<(), NoMemory>
    ensures { OnOk result (Gained (IsGrowing F.is_line (waiting_line waiting)) text.old.items text.new.items) }
{
    let Some(waiting) = waiting else {
        return Ok(());
    };
    let happening = Happening::Instructions {
        who: waiting.who,
        count: waiting.count,
    };
    let at = Moment {
        time: waiting.time,
        step: waiting.step,
    };
    form.add_line(text, at, waiting.name.bytes(), &happening)
}

impl<F: LineForm> Page<F> {
    /// An empty page.
    pub fn new(alloc: Global, form: F) -> Page<F>
        ensures { result ≡ record { text = []; growing = None } }
    {
        Page {
            form,
            text: Vec::new(alloc),
            growing: None,
        }
    }

    /// The text of the page.
    pub fn text(&self) -> &[u8]
        ensures { result.now ≡ self.now.text }
    {
        &self.text
    }

    /// Empties the text, after it was put. Instructions that wait are kept.
    pub fn clear(&mut self)
        ensures { self.new ≡ record self.old { text = [] } }
    {
        self.text.clear();
    }

    /// Ends the waiting for further instructions: those that wait are a line of the page.
    pub fn finish(&mut self) -> Result<(), NoMemory>
        ensures lines { OnOk result ((given : List ℕ) (made : List Line) → Ends F.is_line given self.old made
            → HasLines F.is_line made (given ++ self.new.text)) }
        ensures growing { OnOk result (self.new.growing ≡ None) }
    {
        let waiting = self.growing.take();
        add_waiting(&mut self.form, &mut self.text, waiting)
    }

    // Adds the line of anything but instructions.
    fn add_other(&mut self, at: Moment, name: &[u8], happening: &Happening) -> Result<(), NoMemory>
        requires { is_instructions happening.now ≡ false }
        ensures lines { OnOk result ((given : List ℕ) (made : List Line) → Ends F.is_line given self.old made
            → Ends F.is_line given self.new
            (with_line (record { time = at.time; step = at.step; name = name.now; what = happening.now }) made)) }
        ensures growing { OnOk result (self.new.growing ≡ None) }
    {
        self.finish()?;
        self.form.add_line(&mut self.text, at, name, happening)
    }

    /// Adds instructions of a task or routine. They wait for further ones, joined with those that
    /// wait, or else those are a line now.
    pub fn add_instructions(
        &mut self,
        who: Actor,
        count: u64,
        time: u128,
        step: u64,
        name: &[u8],
    ) -> Result<(), NoMemory>
        requires fits { count_in self.old.growing + count < 2 ^ 64 }
        requires short { length name.now ≤ 31 }
        ensures lines { OnOk result ((given : List ℕ) (made : List Line) → Ends F.is_line given self.old made
            → Ends F.is_line given self.new (with_line
            (record { time = time; step = step; name = name.now; what = Happening.Instructions who count }) made)) }
        ensures count { OnOk result (count_in self.new.growing ≤ count_in self.old.growing + count) }
    {
        if grow(&mut self.growing, &who, count) {
            return Ok(());
        }
        self.finish()?;
        self.growing = Some(waiting(who, count, time, step, name));
        Ok(())
    }

    /// Adds the line of a happening in the step with this number, which begins at this board time.
    /// The name is that of the task that the happening is told of.
    pub fn add(
        &mut self,
        time: u128,
        step: u64,
        name: &[u8],
        happening: &Happening,
    ) -> Result<(), NoMemory>
        requires fits { count_in self.old.growing + count_of happening.now < 2 ^ 64 }
        requires short { length name.now ≤ 31 }
        ensures lines { OnOk result ((given : List ℕ) (made : List Line) → Ends F.is_line given self.old made
            → Ends F.is_line given self.new
            (with_line (record { time = time; step = step; name = name.now; what = happening.now }) made)) }
        ensures count { OnOk result
            (count_in self.new.growing ≤ count_in self.old.growing + count_of happening.now) }
    {
        match happening {
            Happening::Instructions { who, count } => {
                self.add_instructions(*who, *count, time, step, name)
            }
            _ => self.add_other(Moment { time, step }, name, happening),
        }
    }

    /// Adds how the run ended.
    pub fn add_end(&mut self, outcome: &Outcome) -> Result<(), NoMemory>
        ensures text { OnOk result (Gained (F.is_end (outcome_state outcome.now)) self.old.text self.new.text) }
        ensures growing { OnOk result (self.new.growing ≡ self.old.growing) }
    {
        self.form.add_end(&mut self.text, outcome)
    }
}
