//! Marks: exceptions and aborts.

ghost use Rattle.std.specs.Prelude.{◌<◌, ◌^◌};

use crate::frame::Picture;
use crate::layout::{Layout, place_of};
use crate::list::push;
use crate::scale::Scale;
use crate::svg::{add_attribute, add_pixels};
use kernel_world::Actor;
use std::alloc::Global;
use trace_text::{add, add_wide};
use wind_base::NoMemory;

/// What a mark stands for.
#[derive(Clone, Copy, Debug, PartialEq, Eq)]
pub enum Kind {
    /// An exception.
    Exception,
    /// An abort of the shell's line.
    Abort,
}

/// A mark in the row of a task or of the interrupt level.
#[derive(Clone, Copy)]
pub struct Mark {
    // small fields together take less room
    /// Whose row it is in.
    pub who: Actor,
    /// What it stands for.
    pub kind: Kind,
    /// Board time.
    pub time: u128,
}

// Adds a step of a path.
fn add_step(text: &mut Vec<u8>, letter: &[u8], x: u128, y: u128) -> Result<(), NoMemory> {
    add(text, letter)?;
    add_pixels(text, x)?;
    add(text, b" ")?;
    add_pixels(text, y)
}

// Adds a cross.
fn add_cross(text: &mut Vec<u8>, x: u128, y: u128) -> Result<(), NoMemory>
    requires x { x < 2 ^ 100 }
    requires y { y < 2 ^ 100 }
{
    add(text, b"<path class=\"exception\" d=\"")?;
    add_step(text, b"M", x.saturating_sub(400), y)?;
    add_step(text, b"L", x + 400, y + 800)?;
    add_step(text, b"M", x + 400, y)?;
    add_step(text, b"L", x.saturating_sub(400), y + 800)?;
    add(text, b"\">")
}

// Adds a disc.
fn add_disc(text: &mut Vec<u8>, x: u128, y: u128) -> Result<(), NoMemory>
    requires { y < 2 ^ 100 }
{
    add(text, b"<circle class=\"abort\"")?;
    add_attribute(text, b"cx", x)?;
    add_attribute(text, b"cy", y + 400)?;
    add_attribute(text, b"r", 400)?;
    add(text, b">")
}

/// Adds the shape of a mark; its title and its end follow.
pub(crate) fn add_shape(text: &mut Vec<u8>, kind: Kind, x: u128, y: u128) -> Result<(), NoMemory>
    requires x { x < 2 ^ 100 }
    requires y { y < 2 ^ 100 }
{
    match kind {
        Kind::Exception => add_cross(text, x, y),
        Kind::Abort => add_disc(text, x, y),
    }
}

// The word for a mark.
fn word(kind: Kind) -> &'static [u8] {
    match kind {
        Kind::Exception => b"exception",
        Kind::Abort => b"abort",
    }
}

// Adds a mark.
fn add_mark(text: &mut Vec<u8>, mark: &Mark, x: u128, y: u128) -> Result<(), NoMemory>
    requires x { x < 2 ^ 100 }
    requires y { y < 2 ^ 100 }
{
    add_shape(text, mark.kind, x, y)?;
    add(text, b"<title>")?;
    add(text, word(mark.kind))?;
    add(text, b" at ")?;
    add_wide(text, mark.time)?;
    add(text, b"</title>")?;
    match mark.kind {
        Kind::Exception => add(text, b"</path>\n"),
        Kind::Abort => add(text, b"</circle>\n"),
    }
}

// The row of a task or of the interrupt level.
fn row_of(picture: &Picture<'_>, layout: &Layout, who: &Actor) -> Option<usize> {
    match who {
        Actor::Interrupt => Some(0),
        Actor::Task(id) => {
            let place = place_of(picture.rows, *id)?;
            Some(layout.row(place)?.saturating_add(1))
        }
    }
}

// The pixels of the last exception and of the last abort in a row.
#[derive(Clone, Copy)]
struct LastMarks {
    exception: Option<u128>,
    abort: Option<u128>,
}

// Whether a mark of this kind is the first on this pixel. The pixel then has one.
fn is_first(last: &mut LastMarks, kind: Kind, pixel: u128) -> bool {
    let seen = match kind {
        Kind::Exception => &mut last.exception,
        Kind::Abort => &mut last.abort,
    };
    if *seen == Some(pixel) {
        return false;
    }
    *seen = Some(pixel);
    true
}

// Adds a mark, unless its pixel has one of its kind.
fn add_in_row(
    text: &mut Vec<u8>,
    picture: &Picture<'_>,
    layout: &Layout,
    scale: Scale,
    last: &mut Vec<LastMarks>,
    mark: &Mark,
) -> Result<(), NoMemory> {
    let Some(row) = row_of(picture, layout, &mark.who) else {
        return Ok(());
    };
    let Some(last) = last.get_mut(row) else {
        return Ok(());
    };
    if !is_first(last, mark.kind, scale.pixel(mark.time)) {
        return Ok(());
    }
    add_mark(text, mark, scale.place(mark.time), layout.top(row) + 400)
}

// No marks yet in any row.
fn no_marks(alloc: Global, rows: usize) -> Result<Vec<LastMarks>, NoMemory> {
    let mut last = Vec::with_capacity(alloc, rows)?;
    for _ in 0..rows {
        let none = LastMarks {
            exception: None,
            abort: None,
        };
        push(&mut last, none)?;
    }
    Ok(last)
}

/// Adds the marks, at most one of a kind on a pixel of a row.
pub(crate) fn add_marks(
    alloc: Global,
    text: &mut Vec<u8>,
    picture: &Picture<'_>,
    layout: &Layout,
    scale: Scale,
) -> Result<(), NoMemory> {
    let mut last = no_marks(alloc, layout.rows())?;
    for mark in picture.marks {
        add_in_row(text, picture, layout, scale, &mut last, mark)?;
    }
    Ok(())
}
