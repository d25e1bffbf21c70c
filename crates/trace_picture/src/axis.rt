//! The axes with round numbers, and the ticks as fine lines.

ghost use Rattle.std.specs.Prelude.{◌<◌, ◌≤◌, ◌^◌};

use crate::scale::Scale;
use crate::svg::{add_attribute, add_line};
use trace_text::{add, add_wide};
use wind_base::NoMemory;

// The most labels of an axis, but for the first.
const LABELS: u32 = 10;

// The least distance between two lines of ticks.
const TICK_DISTANCE: u128 = 500;

// The round number after `step`, whose place in 1, 2, 5, 10 and so on is given.
fn next_step(step: u128, place: u32) -> u128
    requires { 1 ≤ step }
    ensures { 1 ≤ result }
{
    match place % 3 {
        1 => step.saturating_mul(5) / 2,
        _ => step.saturating_mul(2),
    }
}

// The least round number (1, 2 or 5, then zeros) that divides the time into at most 10 parts.
fn round_step(length: u128) -> u128
    ensures { 1 ≤ result }
{
    let mut step: u128 = 1;
    for place in 0..120_u32 {
        if length / step <= LABELS as u128 {
            return step;
        }
        step = next_step(step, place);
    }
    step
}

/// Where an axis is, and on which side of it its labels are.
#[derive(Clone, Copy)]
pub(crate) enum Side {
    /// Above the plot.
    Above,
    /// Below the plot.
    Below,
}

// Adds a time of an axis.
fn add_label(
    text: &mut Vec<u8>,
    x: u128,
    edge: u128,
    side: Side,
    time: u128,
) -> Result<(), NoMemory>
    requires { edge < 2 ^ 100 }
{
    let (far, y) = match side {
        Side::Above => (edge.saturating_sub(500), edge.saturating_sub(900)),
        Side::Below => (edge + 500, edge + 1900),
    };
    add_line(text, b"axis", x, edge, far)?;
    add(text, b"<text text-anchor=\"middle\"")?;
    add_attribute(text, b"x", x)?;
    add_attribute(text, b"y", y)?;
    add(text, b">")?;
    add_wide(text, time)?;
    add(text, b"</text>\n")
}

/// Adds an axis at an edge of the plot.
pub(crate) fn add_axis(
    text: &mut Vec<u8>,
    scale: Scale,
    edge: u128,
    side: Side,
) -> Result<(), NoMemory>
    requires { edge < 2 ^ 100 }
{
    let step = round_step(scale.length());
    let mut time = scale.start().div_ceil(step).saturating_mul(step);
    for _ in 0..=LABELS {
        if time > scale.end() {
            return Ok(());
        }
        add_label(text, scale.place(time), edge, side, time)?;
        time = time.saturating_add(step);
    }
    Ok(())
}

// Adds a fine line unless it is too near to the last one. Returns the place of the last one.
fn add_tick(
    text: &mut Vec<u8>,
    x: u128,
    last: u128,
    top: u128,
    bottom: u128,
) -> Result<u128, NoMemory> {
    if x < last.saturating_add(TICK_DISTANCE) {
        return Ok(last);
    }
    add_line(text, b"tick", x, top, bottom)?;
    Ok(x)
}

/// Adds a fine line for each tick, but only where they are 5 pixels apart.
pub(crate) fn add_ticks(
    text: &mut Vec<u8>,
    scale: Scale,
    ticks: &[u128],
    top: u128,
    bottom: u128,
) -> Result<(), NoMemory> {
    let mut last = 0;
    for tick in ticks {
        last = add_tick(text, scale.place(*tick), last, top, bottom)?;
    }
    Ok(())
}
