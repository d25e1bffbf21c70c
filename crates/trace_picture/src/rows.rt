//! The rows of tasks: areas as bars and bands. Where several fall on a pixel, one bar and one band show
//! their shares.

ghost use Rattle.std.specs.Prelude.{◌≡◌, ◌<◌, ◌≤◌, ◌^◌};

use crate::areas::{Area, AreaKind};
use crate::frame::Picture;
use crate::layout::{Heights, Layout, RowName, place_of};
use crate::list::push;
use crate::palette::{STANDINGS, place, word};
use crate::scale::Scale;
use crate::svg::{Rect, add_object, add_rect, add_times, add_xml, begin_text};
use board_changes::Standing;
use std::alloc::Global;
use trace_text::{add, add_decimal, add_wide};
use wind_base::NoMemory;

/// How far the base line of a row's name is below its top.
pub(crate) const NAME_DEPTH: u128 = 1200;

/// A row, as it is drawn.
#[derive(Clone, Copy)]
pub(crate) struct Row {
    pub(crate) scale: Scale,
    pub(crate) heights: Heights,
    pub(crate) top: u128,
    ghost low: { top < 2 ^ 77 },
}

// The areas of less than a pixel that begin on one pixel.
#[derive(Clone, Copy)]
struct Bucket {
    // the first area, whether there are more bars or, without bars, more bands, and whether they are of
    // several tasks
    first: Option<Area>,
    has_more: bool,
    is_mixed: bool,
    // the time of each standing, and of inherited priorities
    shares: [u128; 5],
    inherited: u128,
    to: u128,
}

const EMPTY: Bucket = Bucket {
    first: None,
    has_more: false,
    is_mixed: false,
    shares: [0; 5],
    inherited: 0,
    to: 0,
};

// The top of the bands in a row.
fn band_top(row: Row) -> u128 {
    row.top.saturating_add(row.heights.bar).saturating_add(100)
}

/// The rectangle of a time in a row.
pub(crate) fn bar(row: Row, from: u128, to: u128) -> Rect
    ensures { result.y ≡ row.top }
{
    let x = row.scale.place(from);
    Rect {
        x,
        y: row.top,
        width: row.scale.place(to).saturating_sub(x).max(10),
        height: row.heights.bar,
    }
}

/// Adds the id and the name of a task.
pub(crate) fn add_task(text: &mut Vec<u8>, task: &RowName) -> Result<(), NoMemory> {
    add_decimal(text, u64::from(task.id.get()))?;
    add(text, b" ")?;
    add_xml(text, task.name.bytes())
}

// Adds the band below a bar of this height.
fn add_band(text: &mut Vec<u8>, row: Row, task: &RowName, area: &Area) -> Result<(), NoMemory> {
    let rect = bar(row, area.from, area.to);
    let band = Rect {
        y: band_top(row),
        height: row.heights.band,
        ..rect
    };
    add_rect(text, b"inherits", band)?;
    add(text, b"<title>")?;
    add_task(text, task)?;
    add(text, b" ")?;
    add(text, word(area.title.standing))?;
    add(text, b", priority inherited")?;
    add_times(text, area.from, area.to)
}

// Adds the bar of an area.
fn add_bar(text: &mut Vec<u8>, row: Row, task: &RowName, area: &Area) -> Result<(), NoMemory> {
    add_rect(
        text,
        word(area.title.standing),
        bar(row, area.from, area.to),
    )?;
    add(text, b"<title>")?;
    add_task(text, task)?;
    add(text, b" ")?;
    add(text, word(area.title.standing))?;
    add_object(text, &area.title.object)?;
    add_times(text, area.from, area.to)
}

// Adds an area that has a pixel or more.
fn add_whole(text: &mut Vec<u8>, row: Row, task: &RowName, area: &Area) -> Result<(), NoMemory> {
    match area.kind {
        AreaKind::Bar => add_bar(text, row, task, area),
        AreaKind::Band => add_band(text, row, task, area),
    }
}

// ---- several areas on a pixel

// The time of all bars or, if bands without bars have more, that of the bands; at least 1.
fn whole_time(bucket: &Bucket) -> u128
    ensures { 1 ≤ result }
{
    let mut sum: u128 = 0;
    for share in bucket.shares {
        sum = sum.saturating_add(share);
    }
    sum.max(bucket.inherited).max(1)
}

// The part of a height that a share of a time has.
fn part(height: u128, share: u128, whole: u128) -> u128
    requires { 1 ≤ whole }
    ensures { result ≤ height }
{
    (share.saturating_mul(height) / whole).min(height)
}

// Adds whose areas share a pixel.
fn add_owner(text: &mut Vec<u8>, task: &RowName, bucket: &Bucket) -> Result<(), NoMemory> {
    if bucket.is_mixed {
        return add(text, b"several tasks");
    }
    add_task(text, task)
}

// Adds a share of a pixel.
fn add_share(
    text: &mut Vec<u8>,
    task: &RowName,
    bucket: &Bucket,
    class: &[u8],
    words: &[u8],
    rect: Rect,
    share: u128,
) -> Result<(), NoMemory> {
    let whole = whole_time(bucket);
    add_rect(text, class, rect)?;
    add(text, b"<title>")?;
    add_owner(text, task, bucket)?;
    add(text, b" ")?;
    add(text, words)?;
    add(text, b" ")?;
    add_wide(text, share.saturating_mul(100) / whole)?;
    add(text, b" %")?;
    add_times(text, bucket_from(bucket), bucket.to)
}

// When the first area of a pixel begins.
fn bucket_from(bucket: &Bucket) -> u128 {
    match &bucket.first {
        Some(first) => first.from,
        None => 0,
    }
}

// Adds the share of a standing, and returns its height.
fn add_standing(
    text: &mut Vec<u8>,
    task: &RowName,
    bucket: &Bucket,
    rect: Rect,
    standing: Standing,
) -> Result<u128, NoMemory> {
    let share = bucket.shares[place(standing)];
    if share == 0 {
        return Ok(0);
    }
    let height = part(rect.height, share, whole_time(bucket));
    let words = word(standing);
    add_share(
        text,
        task,
        bucket,
        words,
        words,
        Rect { height, ..rect },
        share,
    )?;
    Ok(height)
}

// The pixel of a bucket, as a rectangle of this height.
fn pixel(row: Row, bucket: &Bucket, height: u128) -> Rect {
    Rect {
        x: row.scale.pixel(bucket_from(bucket)) * 100,
        y: row.top,
        width: 100,
        height,
    }
}

// Adds the bar of a pixel: the shares of the standings, one above the other.
fn add_shares(
    text: &mut Vec<u8>,
    row: Row,
    task: &RowName,
    bucket: &Bucket,
) -> Result<(), NoMemory> {
    let mut rect = pixel(row, bucket, row.heights.bar);
    for standing in STANDINGS {
        let height = add_standing(text, task, bucket, rect, standing)?;
        rect.y = rect.y.saturating_add(height);
    }
    Ok(())
}

// Adds the band of a pixel, whose height is the share of inherited priorities.
fn add_shared_band(
    text: &mut Vec<u8>,
    row: Row,
    task: &RowName,
    bucket: &Bucket,
) -> Result<(), NoMemory> {
    if bucket.inherited == 0 {
        return Ok(());
    }
    let height = part(row.heights.band, bucket.inherited, whole_time(bucket));
    let rect = Rect {
        y: band_top(row),
        ..pixel(row, bucket, height.max(1))
    };
    let words = b"inherits a priority";
    add_share(
        text,
        task,
        bucket,
        b"inherits",
        words,
        rect,
        bucket.inherited,
    )
}

// Adds the areas that were kept.
fn add_kept(
    text: &mut Vec<u8>,
    row: Row,
    tasks: &[RowName],
    bucket: &Bucket,
) -> Result<(), NoMemory> {
    let Some(first) = &bucket.first else {
        return Ok(());
    };
    let Some(place) = place_of(tasks, first.row) else {
        return Ok(());
    };
    let Some(task) = tasks.get(place) else {
        return Ok(());
    };
    if bucket.has_more {
        add_shares(text, row, task, bucket)?;
        return add_shared_band(text, row, task, bucket);
    }
    add_whole(text, row, task, first)?;
    if first.kind == AreaKind::Bar && bucket.inherited > 0 {
        return add_band(text, row, task, first);
    }
    Ok(())
}

// Adds the areas that were kept, and forgets them.
fn flush(
    text: &mut Vec<u8>,
    row: Row,
    tasks: &[RowName],
    bucket: &mut Bucket,
) -> Result<(), NoMemory> {
    add_kept(text, row, tasks, bucket)?;
    *bucket = EMPTY;
    Ok(())
}

// Whether an area begins on the same pixel as those that were kept.
fn is_near(scale: Scale, bucket: &Bucket, area: &Area) -> bool {
    match &bucket.first {
        Some(first) => scale.pixel(first.from) == scale.pixel(area.from),
        None => true,
    }
}

// Keeps the first area, or notes that there are more.
fn keep_more(bucket: &mut Bucket, area: &Area) {
    match &bucket.first {
        Some(first) => {
            bucket.is_mixed = bucket.is_mixed || first.row != area.row;
            bucket.has_more = true;
        }
        None => bucket.first = Some(*area),
    }
    bucket.to = area.to;
}

// Keeps a bar of less than a pixel.
fn keep_bar(bucket: &mut Bucket, area: &Area) {
    keep_more(bucket, area);
    let place = place(area.title.standing);
    let time = area.to.saturating_sub(area.from);
    bucket.shares[place] = bucket.shares[place].saturating_add(time);
}

// Whether a bar is kept that an area is the band of.
fn has_bar_of(bucket: &Bucket, area: &Area) -> bool {
    match &bucket.first {
        Some(first) => first.kind == AreaKind::Bar && bucket.to == area.to,
        None => false,
    }
}

// Keeps a band of less than a pixel. Its bar is kept before it, if it is shown.
fn keep_band(bucket: &mut Bucket, area: &Area) {
    if !has_bar_of(bucket, area) {
        keep_more(bucket, area);
    }
    let time = area.to.saturating_sub(area.from);
    bucket.inherited = bucket.inherited.saturating_add(time);
}

// Keeps an area of less than a pixel.
fn keep(bucket: &mut Bucket, area: &Area) {
    match area.kind {
        AreaKind::Bar => keep_bar(bucket, area),
        AreaKind::Band => keep_band(bucket, area),
    }
}

// Adds an area of a row, or keeps it if it has less than a pixel. If it begins on another pixel than
// those that were kept, they come first.
fn add_area(
    text: &mut Vec<u8>,
    row: Row,
    tasks: &[RowName],
    task: &RowName,
    bucket: &mut Bucket,
    area: &Area,
) -> Result<(), NoMemory> {
    let is_whole = row.scale.place(area.to) >= row.scale.place(area.from) + 100;
    if is_whole || !is_near(row.scale, bucket, area) {
        flush(text, row, tasks, bucket)?;
    }
    if is_whole {
        return add_whole(text, row, task, area);
    }
    keep(bucket, area);
    Ok(())
}

/// The row of the interrupt level, a task, a mutex or a queue, counted from 0.
pub(crate) fn row_at(layout: &Layout, scale: Scale, row: usize) -> Row {
    Row {
        scale,
        heights: layout.heights,
        top: layout.top(row),
    }
}

// Adds the area of a task, or keeps it.
fn add_to_row(
    text: &mut Vec<u8>,
    tasks: &[RowName],
    layout: &Layout,
    scale: Scale,
    buckets: &mut Vec<Bucket>,
    area: &Area,
) -> Result<(), NoMemory> {
    let Some(place) = place_of(tasks, area.row) else {
        return Ok(());
    };
    let (Some(row), Some(task)) = (layout.row(place), tasks.get(place)) else {
        return Ok(());
    };
    let Some(bucket) = buckets.get_mut(row) else {
        return Ok(());
    };
    let row = row_at(layout, scale, row.saturating_add(1));
    add_area(text, row, tasks, task, bucket, area)
}

// A bucket for each row of tasks.
fn empty_buckets(alloc: Global, rows: usize) -> Result<Vec<Bucket>, NoMemory> {
    let mut buckets = Vec::new(alloc);
    if buckets.resize(rows, EMPTY).is_err() {
        return Err(NoMemory);
    }
    Ok(buckets)
}

// Adds the areas that were kept last in each row.
fn flush_all(
    text: &mut Vec<u8>,
    tasks: &[RowName],
    layout: &Layout,
    scale: Scale,
    buckets: &[Bucket],
) -> Result<(), NoMemory> {
    for (place, bucket) in buckets.iter().enumerate() {
        let row = row_at(layout, scale, place.saturating_add(1));
        add_kept(text, row, tasks, bucket)?;
    }
    Ok(())
}

/// Adds the areas of the tasks, each in its row.
pub(crate) fn add_areas(
    alloc: Global,
    text: &mut Vec<u8>,
    picture: &Picture<'_>,
    layout: &Layout,
    scale: Scale,
) -> Result<(), NoMemory> {
    let mut buckets = empty_buckets(alloc, layout.task_rows)?;
    for area in picture.areas {
        add_to_row(text, picture.rows, layout, scale, &mut buckets, area)?;
    }
    flush_all(text, picture.rows, layout, scale, &buckets)
}

// ---- the names of the rows

// The tasks of a row: the first, and how many others there are.
#[derive(Clone, Copy)]
struct Sharing {
    first: Option<usize>,
    others: u64,
}

// Adds a task to those of a row.
fn share(sharing: &mut Sharing, place: usize) {
    match sharing.first {
        Some(_) => sharing.others = sharing.others.saturating_add(1),
        None => sharing.first = Some(place),
    }
}

// The tasks of each row.
fn sharings(alloc: Global, tasks: usize, layout: &Layout) -> Result<Vec<Sharing>, NoMemory> {
    let mut sharings = Vec::with_capacity(alloc, layout.task_rows)?;
    for _ in 0..layout.task_rows {
        let none = Sharing {
            first: None,
            others: 0,
        };
        push(&mut sharings, none)?;
    }
    for place in 0..tasks {
        add_sharing(&mut sharings, layout, place);
    }
    Ok(sharings)
}

// Adds the task at this place to those of its row, if it has one.
fn add_sharing(sharings: &mut Vec<Sharing>, layout: &Layout, place: usize) {
    let Some(row) = layout.row(place) else {
        return;
    };
    if let Some(sharing) = sharings.get_mut(row) {
        share(sharing, place);
    }
}

// Adds the name of a row: its first task, and how many others share it.
fn add_name(text: &mut Vec<u8>, row: Row, task: &RowName, others: u64) -> Result<(), NoMemory> {
    begin_text(text, 500, row.top + NAME_DEPTH)?;
    add_task(text, task)?;
    if others > 0 {
        add(text, b" + ")?;
        add_decimal(text, others)?;
    }
    add(text, b"</text>\n")
}

/// Adds the names of the rows of tasks.
pub(crate) fn add_names(
    alloc: Global,
    text: &mut Vec<u8>,
    picture: &Picture<'_>,
    layout: &Layout,
    scale: Scale,
) -> Result<(), NoMemory> {
    let sharings = sharings(alloc, picture.rows.len(), layout)?;
    for (place, sharing) in sharings.iter().enumerate() {
        let row = row_at(layout, scale, place.saturating_add(1));
        if let Some(task) = sharing.first.and_then(|first| picture.rows.get(first)) {
            add_name(text, row, task, sharing.others)?;
        }
    }
    Ok(())
}
