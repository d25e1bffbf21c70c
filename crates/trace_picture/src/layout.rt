//! Where the rows of a picture are.

ghost use Rattle.std.specs.Prelude.{◌<◌, ◌^◌};

use crate::areas::Area;
use crate::frame::Picture;
use crate::list::push;
use id_table::Ident;
use std::alloc::Global;
use wind_base::{NoMemory, ShortName};

/// The top of the first row.
pub(crate) const TOP: u128 = 6000;

// No top is lower than this.
const LOWEST: u128 = 1 << 76;

// The most rows of a picture in which a mutex or a queue still gets one, and in which rows are tall.
const MANY_ROWS: usize = 100;

/// A task of the picture.
#[derive(Drop)]
pub struct RowName {
    /// Its id.
    pub id: Ident,
    /// Its name.
    pub name: ShortName,
}

/// The heights of a row, of its bars, and of its bands.
#[derive(Clone, Copy)]
pub(crate) struct Heights {
    pub(crate) row: u128,
    pub(crate) bar: u128,
    pub(crate) band: u128,
}

const TALL: Heights = Heights {
    row: 3000,
    bar: 1600,
    band: 400,
};

const LOW: Heights = Heights {
    row: 1600,
    bar: 1000,
    band: 300,
};

// From when to when a task has areas.
#[derive(Clone, Copy)]
struct Life {
    from: u128,
    to: u128,
}

/// Where the rows of a picture are: first that of the interrupt level, then those of tasks, of mutexes
/// and of queues.
#[derive(Drop)]
pub(crate) struct Layout {
    // the row of each task, by rising id; none if it has no area
    rows: Vec<Option<usize>>,
    /// How many rows the tasks have.
    pub(crate) task_rows: usize,
    /// The mutexes and queues that have a row, by rising id.
    pub(crate) mutexes: Vec<u32>,
    pub(crate) queues: Vec<u32>,
    /// How many of them have none.
    pub(crate) left_out: usize,
    /// The heights of the rows.
    pub(crate) heights: Heights,
}

/// The place of a task among these, by rising id.
pub(crate) fn place_of(tasks: &[RowName], id: Ident) -> Option<usize> {
    let place = tasks.partition_point(|task| task.id.get() < id.get());
    match tasks.get(place) {
        Some(task) if task.id == id => Some(place),
        _ => None,
    }
}

// Adds an area to the life of its task.
fn lengthen(life: &mut Option<Life>, area: &Area) {
    let longer = match *life {
        Some(life) => Life {
            from: life.from.min(area.from),
            to: life.to.max(area.to),
        },
        None => Life {
            from: area.from,
            to: area.to,
        },
    };
    *life = Some(longer);
}

// The life of each task.
fn lives(alloc: Global, picture: &Picture<'_>) -> Result<Vec<Option<Life>>, NoMemory> {
    let mut lives = Vec::with_capacity(alloc, picture.rows.len())?;
    for _ in picture.rows {
        push(&mut lives, None)?;
    }
    for area in picture.areas {
        add_to_life(&mut lives, picture.rows, area);
    }
    Ok(lives)
}

// Adds an area to the life of its task.
fn add_to_life(lives: &mut Vec<Option<Life>>, tasks: &[RowName], area: &Area) {
    let Some(place) = place_of(tasks, area.row) else {
        return;
    };
    if let Some(life) = lives.get_mut(place) {
        lengthen(life, area);
    }
}

// The first row that is free for a life, where `ends` has the end of the last life in each row. The
// row is then used up to the end of this life.
fn take_row(ends: &mut Vec<u128>, life: Life) -> Result<usize, NoMemory> {
    match ends.iter().position(|end| *end <= life.from) {
        Some(row) => {
            if let Some(end) = ends.get_mut(row) {
                *end = life.to;
            }
            Ok(row)
        }
        None => {
            let row = ends.len();
            push(ends, life.to)?;
            Ok(row)
        }
    }
}

// The row of a task.
fn row_for(ends: &mut Vec<u128>, life: Option<Life>) -> Result<Option<usize>, NoMemory> {
    match life {
        Some(life) => Ok(Some(take_row(ends, life)?)),
        None => Ok(None),
    }
}

// The rows of tasks with these lives. Tasks whose lives don't overlap share rows: each gets the first
// that is free. Returns also how many rows they have.
fn assign(alloc: Global, lives: &[Option<Life>]) -> Result<(Vec<Option<usize>>, usize), NoMemory> {
    let mut ends = Vec::new(alloc);
    let mut rows = Vec::with_capacity(alloc, lives.len())?;
    for life in lives {
        push(&mut rows, row_for(&mut ends, *life)?)?;
    }
    Ok((rows, ends.len()))
}

// Ids, by rising id.
fn sorted(alloc: Global, ids: &[u32]) -> Result<Vec<u32>, NoMemory> {
    let mut sorted = Vec::new(alloc);
    if sorted.extend_from_slice(ids).is_err() {
        return Err(NoMemory);
    }
    sorted.sort()?;
    Ok(sorted)
}

impl Layout {
    /// The rows of a picture.
    pub(crate) fn new(alloc: Global, picture: &Picture<'_>) -> Result<Layout, NoMemory> {
        let lives = lives(alloc, picture)?;
        let (rows, task_rows) = assign(alloc, &lives)?;
        let mut layout = Layout {
            rows,
            task_rows,
            mutexes: sorted(alloc, picture.mutexes)?,
            queues: sorted(alloc, picture.queues)?,
            left_out: 0,
            heights: TALL,
        };
        layout.leave_out();
        Ok(layout)
    }

    // Leaves out the mutexes and queues for which there is no room, and chooses the height of rows.
    fn leave_out(&mut self) {
        let room = MANY_ROWS.saturating_sub(self.task_rows.saturating_add(1));
        let (mutexes, queues) = (self.mutexes.len(), self.queues.len());
        self.mutexes.truncate(room);
        self.queues.truncate(room.saturating_sub(mutexes));
        self.left_out = mutexes
            .saturating_sub(self.mutexes.len())
            .saturating_add(queues.saturating_sub(self.queues.len()));
        if self.rows() > MANY_ROWS {
            self.heights = LOW;
        }
    }

    /// How many rows there are.
    pub(crate) fn rows(&self) -> usize {
        self.task_rows
            .saturating_add(1)
            .saturating_add(self.mutexes.len())
            .saturating_add(self.queues.len())
    }

    /// The row of the task at this place, counted from 0 among those of tasks.
    pub(crate) fn row(&self, place: usize) -> Option<usize> {
        match self.rows.get(place) {
            Some(row) => *row,
            None => None,
        }
    }
}

impl Layout {
    /// The top of a row.
    pub(crate) fn top(&self, row: usize) -> u128
        ensures { result < 2 ^ 77 }
    {
        TOP + self.heights.row.saturating_mul(row as u128).min(LOWEST)
    }

    /// The bottom of the last row.
    pub(crate) fn bottom(&self) -> u128
        ensures { result < 2 ^ 77 }
    {
        self.top(self.rows())
    }
}
