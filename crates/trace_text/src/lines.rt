//! The line of a happening.

ghost use Rattle.std.specs.Prelude.{◌≡◌, ◌≤◌, ◌+◌, ◌-◌, ◌++◌, OnOk, length};
ghost use Rattle.wind_base.specs.OutBuf.{KeepsSpace};
ghost use Rattle.trace_text.specs.Lines.{blanks, columns, left as left_lem, line_text, right as right_lem, subject_text};

use crate::happenings::add_happening;
use crate::pieces::{add, add_decimal, add_escaped};
use board_trace::{Happening, Subject, subject_of};
use itoa::Buffer;
use std::alloc::Global;
use wind_base::{NoMemory, OutBuf};

// The widths of the columns in bytes; a longer number makes its column wider.
const TIME_BYTES: usize = 10;

const STEP_BYTES: usize = 9;

const WHO_BYTES: usize = 16;

/// When a step begins, in board time, and its number, counted from 1.
#[derive(Clone, Copy, Debug, PartialEq, Eq)]
pub struct Moment {
    /// The board time.
    pub time: u128,
    /// The number of the step.
    pub step: u64,
}

// Blanks: as many as a column may need.
const BLANKS: &[u8; 16] = b"                ";

// Adds blanks, at most 16.
fn add_blanks(text: &mut Vec<u8>, n: usize) -> Result<(), NoMemory>
    requires { n ≤ 16 }
    ensures { OnOk result (text.new.items ≡ text.old.items ++ blanks n) }
{
    add(text, &BLANKS[..n])
}

// Adds a number at the right of its column, and a blank after it.
fn add_right(text: &mut Vec<u8>, n: u128, bytes: usize) -> Result<(), NoMemory>
    requires { bytes ≤ 16 }
    ensures { OnOk result (text.new.items ≡ text.old.items ++ right_lem bytes n) }
{
    let mut buffer = Buffer::new();
    let digits = buffer.format(n).as_bytes();
    add_blanks(text, bytes.saturating_sub(digits.len()))?;
    add(text, digits)?;
    add_blanks(text, 1)
}

// Adds a text at the left of its column, cut or filled to its width, and two blanks.
fn add_left(text: &mut Vec<u8>, words: &[u8], bytes: usize) -> Result<(), NoMemory>
    requires { bytes ≤ 16 }
    ensures { OnOk result (text.new.items ≡ text.old.items ++ left_lem bytes words.now) }
{
    let kept = words.len().min(bytes);
    add(text, &words[..kept])?;
    add_blanks(text, bytes.saturating_sub(words.len()))?;
    add_blanks(text, 2)
}

// Adds who a line is told of.
fn add_subject(text: &mut Vec<u8>, who: Subject, name: &[u8]) -> Result<(), NoMemory>
    ensures { OnOk result (text.new.items ≡ text.old.items ++ subject_text who name.now) }
{
    match who {
        Subject::Board => add(text, b"board"),
        Subject::Interrupt => add(text, b"interrupt"),
        Subject::Task(id) => {
            add_decimal(text, u64::from(id))?;
            add(text, b" ")?;
            add_escaped(text, name)
        }
    }
}

/// Adds the columns of a line before its text.
pub(crate) fn add_columns(
    alloc: Global,
    text: &mut Vec<u8>,
    at: Moment,
    who: Subject,
    name: &[u8],
) -> Result<(), NoMemory>
    ensures { OnOk result (text.new.items ≡ text.old.items ++ columns at.time at.step who name.now) }
{
    let mut words = Vec::new(alloc);
    add_subject(&mut words, who, name)?;
    add_right(text, at.time, TIME_BYTES)?;
    add_right(text, u128::from(at.step), STEP_BYTES)?;
    add_blanks(text, 1)?;
    add_left(text, &words, WHO_BYTES)
}

/// Adds the line of a happening in the step of this moment. The name is that of the task that the
/// line is told of. `scratch` is a buffer with room for the text of a call.
pub(crate) fn add_line(
    alloc: Global,
    text: &mut Vec<u8>,
    scratch: &mut OutBuf,
    at: Moment,
    name: &[u8],
    happening: &Happening,
) -> Result<(), NoMemory>
    requires { 320 ≤ scratch.old.room + length scratch.old.bytes }
    ensures text { OnOk result (text.new.items ≡ text.old.items
        ++ line_text (record { time = at.time; step = at.step; name = name.now; what = happening.now })) }
    ensures room { KeepsSpace scratch.old scratch.new }
{
    add_columns(alloc, text, at, subject_of(happening), name)?;
    add_happening(text, scratch, happening)?;
    add(text, b"\n")
}
