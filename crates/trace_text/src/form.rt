//! The forms in which the lines of a run are written.

ghost use Rattle.std.specs.Prelude.{◌≡◌, ◌++◌, OnOk};
ghost use Rattle.trace_text.specs.Forms.{Gained};

use crate::ending::add_last_line;
use crate::lines::{Moment, add_line};
use board_changes::TaskView;
use board_trace::Happening;
use std::alloc::Global;
use std::marker::Model;
use wind_base::{NoMemory, OutBuf};

/// How a run ended.
#[derive(Drop)]
pub struct Outcome<'a> {
    /// The board time and the number of the last step.
    pub at: Moment,
    /// How the run ended, in words.
    pub how: &'a [u8],
    /// The tasks that are left, by rising id.
    pub tasks: &'a [TaskView],
    /// How many bytes of the console file haven't arrived.
    pub left: u64,
}

/// A form in which the lines of a run are written, each after those before it.
pub trait LineForm: Drop {
    ghost use Rattle.std.specs.Prelude.{◌≡◌, ℕ, List, OnOk};
    ghost use Rattle.board_trace.specs.Runs.{Line};
    ghost use Rattle.trace_text.specs.Forms.{Gained, OutcomeState, outcome_state};

    /// This is how a line is written.
    ghost is_line: { Line → List ℕ → Type 0 };

    /// This is how the end of a run is written.
    ghost is_end: { OutcomeState → List ℕ → Type 0 };

    /// Adds the line of a happening in the step of this moment. The name is that of the task that
    /// the happening is told of.
    ///
    /// # Errors
    ///
    /// `NoMemory` if memory runs out.
    fn add_line(
        &mut self,
        text: &mut Vec<u8>,
        at: Moment,
        name: &[u8],
        happening: &Happening,
    ) -> Result<(), NoMemory>
        ensures { OnOk result (Gained
            (is_line (record { time = at.time; step = at.step; name = name.now; what = happening.now }))
            text.old.items text.new.items) };

    /// Adds how the run ended.
    ///
    /// # Errors
    ///
    /// `NoMemory` if memory runs out.
    fn add_end(&mut self, text: &mut Vec<u8>, outcome: &Outcome) -> Result<(), NoMemory>
        ensures { OnOk result (Gained (is_end (outcome_state outcome.now)) text.old.items text.new.items) };
}

// The room for the text of one call and its reply.
const SCRATCH_BYTES: u32 = 320;

/// Lines for people: `TIME STEP WHO WHAT`.
#[derive(Drop)]
pub struct TextLines {
    alloc: Global,
    scratch: OutBuf,
}

impl Model for TextLines {
    ghost use Rattle.std.specs.Prelude.{◌≤◌, ◌+◌, length};

    ghost Value = { Unit {0} };

    ghost view = { λ l. tt };

    ghost invariant = { λ l. 320 ≤ l.scratch.room + length l.scratch.bytes };
}

impl TextLines {
    /// Lines for people.
    ///
    /// # Errors
    ///
    /// `NoMemory` if memory runs out.
    pub fn new(alloc: Global) -> Result<TextLines, NoMemory> {
        let scratch = OutBuf::reserved(alloc, SCRATCH_BYTES)?;
        Ok(TextLines { alloc, scratch })
    }
}

impl LineForm for TextLines {
    ghost use Rattle.std.specs.Prelude.{◌≡◌};
    ghost use Rattle.trace_text.specs.{Ending.last_line, Lines.line_text};

    ghost is_line = { λ l text. text ≡ line_text l };

    ghost is_end = { λ e text. text ≡ last_line e.time e.step e.how e.tasks e.left };

    fn add_line(
        &mut self,
        text: &mut Vec<u8>,
        at: Moment,
        name: &[u8],
        happening: &Happening,
    ) -> Result<(), NoMemory> {
        add_line(self.alloc, text, &mut self.scratch, at, name, happening)
    }

    fn add_end(&mut self, text: &mut Vec<u8>, outcome: &Outcome) -> Result<(), NoMemory> {
        let Outcome {
            at,
            how,
            tasks,
            left,
        } = outcome;
        add_last_line(self.alloc, text, *at, how, tasks, *left)
    }
}
