//! The rows of mutexes and queues that tasks waited for.

use crate::frame::Picture;
use crate::layout::{Layout, RowName, place_of};
use crate::rows::{NAME_DEPTH, Row, add_task, bar, row_at};
use crate::scale::{LEFT, Scale, WIDTH};
use crate::svg::{add_pixels, add_rect, add_times, begin_text};
use id_table::Ident;
use trace_text::{add, add_decimal};
use wind_base::NoMemory;

/// A time in which a mutex is owned.
#[derive(Clone, Copy)]
pub struct Ownership {
    /// The mutex.
    pub mutex: u32,
    /// The task that owns it.
    pub owner: u32,
    /// From when, in board time.
    pub from: u128,
    /// Until when.
    pub to: u128,
}

/// A change of the length of a queue.
#[derive(Clone, Copy)]
pub struct QueueLength {
    // small fields together take less room
    /// The queue.
    pub queue: u32,
    /// How many messages it holds from `time` on.
    pub messages: u32,
    /// Board time.
    pub time: u128,
}

// The width of a letter of an owner's name.
const LETTER: u128 = 600;

// The times that begin on one pixel: the first, when the last ends, and how many there are.
#[derive(Clone, Copy)]
struct Kept {
    first: Ownership,
    to: u128,
    times: u64,
}

// Adds the name of the row of a mutex or a queue.
fn add_label(text: &mut Vec<u8>, row: Row, kind: &[u8], id: u32) -> Result<(), NoMemory> {
    begin_text(text, 500, row.top + NAME_DEPTH)?;
    add(text, kind)?;
    add_decimal(text, u64::from(id))?;
    add(text, b"</text>\n")
}

// The task with this id.
fn task_of(tasks: &[RowName], id: u32) -> Option<&RowName> {
    let place = place_of(tasks, Ident::new(id)?)?;
    tasks.get(place)
}

// Adds the owner of a mutex, by its id if it has no name.
fn add_owner(text: &mut Vec<u8>, tasks: &[RowName], owner: u32) -> Result<(), NoMemory> {
    match task_of(tasks, owner) {
        Some(task) => add_task(text, task),
        None => add_decimal(text, u64::from(owner)),
    }
}

// Adds the owner's name over its bar, if it fits.
fn add_owner_name(
    text: &mut Vec<u8>,
    row: Row,
    tasks: &[RowName],
    held: &Ownership,
) -> Result<(), NoMemory> {
    let rect = bar(row, held.from, held.to);
    let letters = match task_of(tasks, held.owner) {
        Some(task) => (task.name.bytes().len() as u128).saturating_add(6),
        None => 6,
    };
    if rect.width < letters.saturating_mul(LETTER) {
        return Ok(());
    }
    add(text, b"<text class=\"owner\" x=\"")?;
    add_pixels(text, rect.x.saturating_add(200))?;
    add(text, b"\" y=\"")?;
    add_pixels(text, row.top + NAME_DEPTH - 200)?;
    add(text, b"\">")?;
    add_owner(text, tasks, held.owner)?;
    add(text, b"</text>\n")
}

// Adds the bar of a time in which a mutex is owned.
fn add_ownership(
    text: &mut Vec<u8>,
    row: Row,
    tasks: &[RowName],
    held: &Ownership,
) -> Result<(), NoMemory> {
    add_rect(text, b"owned", bar(row, held.from, held.to))?;
    add(text, b"<title>mutex ")?;
    add_decimal(text, u64::from(held.mutex))?;
    add(text, b" owned by ")?;
    add_owner(text, tasks, held.owner)?;
    add_times(text, held.from, held.to)?;
    add_owner_name(text, row, tasks, held)
}

// Adds one bar for several times in which a mutex is owned.
fn add_ownerships(text: &mut Vec<u8>, row: Row, kept: &Kept) -> Result<(), NoMemory> {
    add_rect(text, b"owned", bar(row, kept.first.from, kept.to))?;
    add(text, b"<title>mutex ")?;
    add_decimal(text, u64::from(kept.first.mutex))?;
    add(text, b" owned ")?;
    add_decimal(text, kept.times)?;
    add(text, b" times")?;
    add_times(text, kept.first.from, kept.to)
}

// Adds the bar of the times that were kept.
fn add_kept(
    text: &mut Vec<u8>,
    row: Row,
    tasks: &[RowName],
    kept: &Option<Kept>,
) -> Result<(), NoMemory> {
    let Some(kept) = kept else {
        return Ok(());
    };
    if kept.times > 1 {
        return add_ownerships(text, row, kept);
    }
    add_ownership(text, row, tasks, &kept.first)
}

// Keeps a time in which a mutex is owned. Times that begin on one pixel are one bar; if this one begins
// on another, the bar of those that were kept comes first.
fn keep(
    text: &mut Vec<u8>,
    row: Row,
    tasks: &[RowName],
    kept: &mut Option<Kept>,
    held: &Ownership,
) -> Result<(), NoMemory> {
    if let Some(before) = kept {
        if row.scale.pixel(before.first.from) == row.scale.pixel(held.from) {
            before.to = held.to;
            before.times = before.times.saturating_add(1);
            return Ok(());
        }
    }
    add_kept(text, row, tasks, kept)?;
    *kept = Some(Kept {
        first: *held,
        to: held.to,
        times: 1,
    });
    Ok(())
}

// Adds the row of a mutex.
fn add_mutex(
    text: &mut Vec<u8>,
    row: Row,
    picture: &Picture<'_>,
    mutex: u32,
) -> Result<(), NoMemory> {
    add_label(text, row, b"mutex ", mutex)?;
    let mut kept = None;
    for held in picture.owners {
        if held.mutex == mutex {
            keep(text, row, picture.rows, &mut kept, held)?;
        }
    }
    add_kept(text, row, picture.rows, &kept)
}

// ---- queues

// The height of a number of messages above the bottom of a bar, where `most` has the height of the bar.
fn level(row: Row, messages: u32, most: u32) -> u128 {
    let bar = row.heights.bar;
    let part = u128::from(messages).saturating_mul(bar) / u128::from(most.max(1));
    row.top.saturating_add(bar).saturating_sub(part.min(bar))
}

// The greatest length of a queue.
fn greatest(lengths: &[QueueLength], queue: u32) -> u32 {
    let mut most = 0;
    for length in lengths {
        if length.queue == queue {
            most = most.max(length.messages);
        }
    }
    most
}

// The length of a queue at the start of the picture.
fn first_length(lengths: &[QueueLength], queue: u32, start: u128) -> u32 {
    let first = lengths.iter().find(|length| length.queue == queue);
    match first {
        Some(length) if length.time <= start => length.messages,
        _ => 0,
    }
}

// The step line of a queue up to a pixel: the least and the greatest length on it, and the last.
#[derive(Clone, Copy)]
struct Pen {
    x: u128,
    least: u32,
    greatest: u32,
    last: u32,
}

// Adds a vertical piece of a path.
fn add_down(text: &mut Vec<u8>, y: u128) -> Result<(), NoMemory> {
    add(text, b"V")?;
    add_pixels(text, y)
}

// Adds the pieces of a path on the pen's pixel.
fn add_steps(text: &mut Vec<u8>, row: Row, pen: &Pen, most: u32) -> Result<(), NoMemory> {
    add(text, b"H")?;
    add_pixels(text, pen.x)?;
    if pen.least != pen.greatest {
        add_down(text, level(row, pen.greatest, most))?;
        add_down(text, level(row, pen.least, most))?;
    }
    add_down(text, level(row, pen.last, most))
}

// Takes a length into the path.
fn step(
    text: &mut Vec<u8>,
    row: Row,
    pen: &mut Pen,
    most: u32,
    length: &QueueLength,
) -> Result<(), NoMemory> {
    let x = row.scale.place(length.time);
    if x / 100 == pen.x / 100 {
        pen.least = pen.least.min(length.messages);
        pen.greatest = pen.greatest.max(length.messages);
    } else {
        add_steps(text, row, pen, most)?;
        pen.x = x;
        pen.least = length.messages;
        pen.greatest = length.messages;
    }
    pen.last = length.messages;
    Ok(())
}

// Adds the beginning of the path of a queue, which has this length there.
fn begin_path(text: &mut Vec<u8>, row: Row, length: u32, most: u32) -> Result<(), NoMemory> {
    add(text, b"<path class=\"length\" d=\"M")?;
    add_pixels(text, LEFT)?;
    add(text, b" ")?;
    add_pixels(text, level(row, length, most))
}

// Adds the end of the path of a queue, with its title.
fn end_path(text: &mut Vec<u8>, queue: u32, most: u32) -> Result<(), NoMemory> {
    add(text, b"H")?;
    add_pixels(text, LEFT + WIDTH)?;
    add(text, b"\"><title>queue ")?;
    add_decimal(text, u64::from(queue))?;
    add(text, b", at most ")?;
    add_decimal(text, u64::from(most))?;
    add(text, b" messages</title></path>\n")
}

// Adds the row of a queue.
fn add_queue(
    text: &mut Vec<u8>,
    row: Row,
    lengths: &[QueueLength],
    queue: u32,
) -> Result<(), NoMemory> {
    add_label(text, row, b"queue ", queue)?;
    let most = greatest(lengths, queue);
    let first = first_length(lengths, queue, row.scale.start());
    begin_path(text, row, first, most)?;
    let mut pen = Pen {
        x: LEFT,
        least: first,
        greatest: first,
        last: first,
    };
    for length in lengths {
        if length.queue == queue {
            step(text, row, &mut pen, most, length)?;
        }
    }
    add_steps(text, row, &pen, most)?;
    end_path(text, queue, most)
}

// ---- all of them

// Adds the rows of mutexes; the first is in this row of the picture.
fn add_mutexes(
    text: &mut Vec<u8>,
    picture: &Picture<'_>,
    layout: &Layout,
    scale: Scale,
    first: usize,
) -> Result<(), NoMemory> {
    for (place, mutex) in layout.mutexes.iter().enumerate() {
        let row = row_at(layout, scale, first.saturating_add(place));
        add_mutex(text, row, picture, *mutex)?;
    }
    Ok(())
}

// Adds the rows of queues; the first is in this row of the picture.
fn add_queues(
    text: &mut Vec<u8>,
    picture: &Picture<'_>,
    layout: &Layout,
    scale: Scale,
    first: usize,
) -> Result<(), NoMemory> {
    for (place, queue) in layout.queues.iter().enumerate() {
        let row = row_at(layout, scale, first.saturating_add(place));
        add_queue(text, row, picture.lengths, *queue)?;
    }
    Ok(())
}

/// Adds the rows of mutexes and queues.
pub(crate) fn add_objects(
    text: &mut Vec<u8>,
    picture: &Picture<'_>,
    layout: &Layout,
    scale: Scale,
) -> Result<(), NoMemory> {
    let first = layout.task_rows.saturating_add(1);
    add_mutexes(text, picture, layout, scale, first)?;
    let next = first.saturating_add(layout.mutexes.len());
    add_queues(text, picture, layout, scale, next)
}
