//! The whole picture.

ghost use Rattle.std.specs.Prelude.{◌<◌, ◌^◌};

use crate::areas::Area;
use crate::axis::{Side, add_axis, add_ticks};
use crate::layout::{Layout, RowName, TOP};
use crate::marks::{Kind, Mark, add_marks, add_shape};
use crate::objects::{Ownership, QueueLength, add_objects};
use crate::palette::{STANDINGS, STYLE, place, word};
use crate::rows::{NAME_DEPTH, add_areas, add_names, bar, row_at};
use crate::scale::{LEFT, Scale, WIDTH};
use crate::svg::{Rect, add_attribute, add_pixels, add_rect, add_text, add_times, begin_text};
use std::alloc::Global;
use trace_text::{add, add_decimal};
use wind_base::NoMemory;

/// What a picture shows.
#[derive(Clone, Copy)]
pub struct Picture<'a> {
    /// The tasks, by rising id.
    pub rows: &'a [RowName],
    /// What the tasks did, for each in order of time.
    pub areas: &'a [Area],
    /// From when to when an interrupt routine was active.
    pub routines: &'a [(u128, u128)],
    /// From when to when a mutex was owned, for each in order of time.
    pub owners: &'a [Ownership],
    /// The lengths of queues, in order of time.
    pub lengths: &'a [QueueLength],
    /// The mutexes and the queues that get a row, if there is room.
    pub mutexes: &'a [u32],
    pub queues: &'a [u32],
    /// The times of the ticks.
    pub ticks: &'a [u128],
    /// The marks, in order of time.
    pub marks: &'a [Mark],
    /// The first and the last board time that it shows.
    pub start: u128,
    pub end: u128,
}

// The width of the picture.
const PICTURE_WIDTH: u128 = LEFT + WIDTH + 4000;

// The height of what is below the rows: an axis and a legend.
const FOOT: u128 = 6000;

// Adds one entry of the legend.
fn add_entry(
    text: &mut Vec<u8>,
    x: u128,
    top: u128,
    class: &[u8],
    words: &[u8],
) -> Result<(), NoMemory>
    requires x { x < 2 ^ 100 }
    requires top { top < 2 ^ 100 }
{
    let rect = Rect {
        x,
        y: top,
        width: 1400,
        height: 1400,
    };
    add_rect(text, class, rect)?;
    add(text, b"</rect>\n")?;
    add_text(text, x + 2000, top + 1200, words)
}

// Adds the entries of the standings.
fn add_standings(text: &mut Vec<u8>, top: u128) -> Result<(), NoMemory>
    requires { top < 2 ^ 100 }
{
    for standing in STANDINGS {
        let x = LEFT + 12_500 * place(standing) as u128;
        add_entry(text, x, top, word(standing), word(standing))?;
    }
    Ok(())
}

// Adds the entries of the marks.
fn add_mark_entries(text: &mut Vec<u8>, top: u128) -> Result<(), NoMemory>
    requires { top < 2 ^ 99 }
{
    add_shape(text, Kind::Exception, LEFT + 92_500, top + 300)?;
    add(text, b"</path>\n")?;
    add_text(text, LEFT + 94_000, top + 1200, b"exception")?;
    add_shape(text, Kind::Abort, LEFT + 104_000, top + 300)?;
    add(text, b"</circle>\n")?;
    add_text(text, LEFT + 105_000, top + 1200, b"abort")
}

// Adds a legend.
fn add_legend(text: &mut Vec<u8>, top: u128) -> Result<(), NoMemory>
    requires { top < 2 ^ 99 }
{
    add_standings(text, top)?;
    add_entry(text, LEFT + 62_500, top, b"inherits", b"priority inherited")?;
    add_entry(text, LEFT + 77_500, top, b"owned", b"mutex owned")?;
    add_mark_entries(text, top)
}

// Adds the beginning of the picture, with its size.
fn add_head(text: &mut Vec<u8>, height: u128) -> Result<(), NoMemory> {
    add(
        text,
        b"<svg xmlns=\"http://www.w3.org/2000/svg\" version=\"1.1\"",
    )?;
    add_attribute(text, b"width", PICTURE_WIDTH)?;
    add_attribute(text, b"height", height)?;
    add(text, b" viewBox=\"0 0 ")?;
    add_pixels(text, PICTURE_WIDTH)?;
    add(text, b" ")?;
    add_pixels(text, height)?;
    add(text, b"\">\n")?;
    add(text, STYLE)?;
    add(text, b"<title>What each task did over board time</title>\n")
}

// Adds the bar of an interrupt routine.
fn add_routine(
    text: &mut Vec<u8>,
    layout: &Layout,
    scale: Scale,
    from: u128,
    to: u128,
) -> Result<(), NoMemory> {
    add_rect(text, b"running", bar(row_at(layout, scale, 0), from, to))?;
    add(text, b"<title>interrupt routine")?;
    add_times(text, from, to)
}

// Adds the row of the interrupt level.
fn add_level(
    text: &mut Vec<u8>,
    picture: &Picture<'_>,
    layout: &Layout,
    scale: Scale,
) -> Result<(), NoMemory> {
    add_text(text, 500, layout.top(0) + NAME_DEPTH, b"interrupt")?;
    for (from, to) in picture.routines {
        add_routine(text, layout, scale, *from, *to)?;
    }
    Ok(())
}

// Adds how many mutexes and queues have no row, if any is left out.
fn add_left_out(text: &mut Vec<u8>, y: u128, left_out: usize) -> Result<(), NoMemory> {
    if left_out == 0 {
        return Ok(());
    }
    begin_text(text, 500, y)?;
    add(text, b"without a row: ")?;
    add_decimal(text, left_out as u64)?;
    add(text, b"</text>\n")
}

// Adds the rows.
fn add_rows(
    alloc: Global,
    text: &mut Vec<u8>,
    picture: &Picture<'_>,
    layout: &Layout,
    scale: Scale,
) -> Result<(), NoMemory> {
    add_level(text, picture, layout, scale)?;
    add_names(alloc, text, picture, layout, scale)?;
    add_areas(alloc, text, picture, layout, scale)?;
    add_objects(text, picture, layout, scale)?;
    add_marks(alloc, text, picture, layout, scale)
}

/// Adds a picture of no step, which says so.
pub fn add_empty_picture(text: &mut Vec<u8>) -> Result<(), NoMemory> {
    add_head(text, TOP)?;
    add_text(text, 500, TOP / 2, b"no step of the run is chosen")?;
    add(text, b"</svg>\n")
}

/// Adds the picture, complete in itself.
pub fn add_picture(
    alloc: Global,
    text: &mut Vec<u8>,
    picture: &Picture<'_>,
) -> Result<(), NoMemory> {
    let scale = Scale::new(picture.start, picture.end);
    let layout = Layout::new(alloc, picture)?;
    let bottom = layout.bottom();
    add_head(text, bottom + FOOT)?;
    add_legend(text, 1500)?;
    add_axis(text, scale, TOP, Side::Above)?;
    add_ticks(text, scale, picture.ticks, TOP, bottom)?;
    add_rows(alloc, text, picture, &layout, scale)?;
    add_axis(text, scale, bottom, Side::Below)?;
    add_left_out(text, bottom + 4200, layout.left_out)?;
    add_legend(text, bottom + 3000)?;
    add(text, b"</svg>\n")
}
