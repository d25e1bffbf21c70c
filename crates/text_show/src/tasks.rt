//! The table of tasks.

ghost use Rattle.std.specs.Prelude.{◌≡◌, ◌<◌, ◌++◌, ◌∷◌, [], OnOk, OnErr, IfOk};
ghost use Rattle.std.specs.List.{filter, flat_map};
ghost use Rattle.id_table.specs.Sorting.{sorted};
ghost use Rattle.text_show.specs.Columns.{with_text};
ghost use Rattle.text_show.specs.Tasks.{ticks_to as ticks_to_lem, task_row, task_header, has_priority, stands_before, AreLow, task_table_of};

use crate::numeral::{hex_digits, numeral};
use crate::page::{Cell, add, add_cell, add_next, add_row, write};
use itoa::Buffer;
use std::alloc::Global;
use task_block::Task;
use wind_base::limits::LEAST_URGENT;
use wind_base::{NoMemory, OutBuf};
use wind_core::Kern;

// The ticks until a wake, or 0 if there is none.
fn ticks_to(tick: u64, wake: Option<u64>) -> u64
    ensures { result ≡ ticks_to_lem tick wake }
{
    match wake {
        Some(wake) => wake.saturating_sub(tick),
        None => 0,
    }
}

// Adds the header.
#[tactic(auto, unfolding(crate::specs::Tasks::task_header))]
fn add_header(page: &mut Vec<u8>) -> Result<(), NoMemory>
    ensures { OnOk result (page.new.items ≡ page.old.items ++ task_header) }
{
    add_row(
        page,
        &[
            Cell::Left(12, b"NAME"),
            Cell::Right(8, b"TID"),
            Cell::Right(3, b"PRI"),
            Cell::Left(8, b"STATUS"),
            Cell::Left(8, b"PC"),
            Cell::Right(8, b"ERRNO"),
            Cell::Right(10, b"DELAY"),
        ],
    )
}

// Adds the row of a task.
#[tactic(auto, unfolding(crate::specs::Tasks::task_row))]
fn add_task(page: &mut Vec<u8>, tick: u64, task: &Task) -> Result<(), NoMemory>
    ensures { OnOk result (page.new.items ≡ page.old.items ++ task_row tick task.now) }
{
    let id = numeral(16, false, task.id.get());
    let pri = numeral(10, false, task.pri.get());
    let status = task.status();
    let pc = hex_digits(8, task.regs.pc);
    let errno = numeral(16, false, task.errno);
    let ticks = ticks_to(tick, task.wake);
    let mut delay = Buffer::new();
    add_cell(page, &Cell::Left(12, task.name.bytes()))?;
    add_next(page, &Cell::Right(8, id.as_slice()))?;
    add_next(page, &Cell::Right(3, pri.as_slice()))?;
    add_next(page, &Cell::Left(8, status.bytes()))?;
    add_next(page, &Cell::Left(8, pc.as_slice()))?;
    add_next(page, &Cell::Right(8, errno.as_slice()))?;
    add_next(page, &Cell::Right(10, delay.format(ticks).as_bytes()))?;
    add(page, b"\n")?;
    Ok(())
}

// Adds the row of a task, if it has this priority.
fn add_at(page: &mut Vec<u8>, tick: u64, pri: u32, task: &Task) -> Result<(), NoMemory>
    ensures rows { OnOk result (page.new.items
        ≡ page.old.items ++ flat_map (task_row tick) (filter (has_priority pri) (task.now ∷ []))) }
    ensures low { OnOk result (task.now.pri < 256) }
{
    if task.pri.get() == pri {
        add_task(page, tick, task)
    } else {
        Ok(())
    }
}

// Adds the rows of the tasks with one priority.
fn add_of_priority(page: &mut Vec<u8>, kern: &Kern, pri: u32) -> Result<(), NoMemory>
    ensures rows { OnOk result (page.new.items
        ≡ page.old.items ++ flat_map (task_row kern.now.tick) (filter (has_priority pri) kern.now.tasks)) }
    ensures low { OnOk result (AreLow kern.now.tasks) }
{
    for place in 0..kern.live() {
        add_at(page, kern.ticks(), pri, kern.task_at(place))?;
    }
    Ok(())
}

// Adds the rows of all tasks, by priority and then by id.
fn add_tasks(page: &mut Vec<u8>, kern: &Kern) -> Result<(), NoMemory>
    ensures { OnOk result (page.new.items
        ≡ page.old.items ++ flat_map (task_row kern.now.tick) (sorted stands_before kern.now.tasks)) }
{
    kern.facts();
    for pri in 0..LEAST_URGENT + 1 {
        add_of_priority(page, kern, pri)?;
    }
    Ok(())
}

// Makes the table of tasks.
#[tactic(auto, unfolding(crate::specs::Tasks::task_table_of))]
fn task_page(alloc: Global, kern: &Kern) -> Result<Vec<u8>, NoMemory>
    ensures { IfOk result (λ p. p.items ≡ task_table_of kern.now) }
{
    let mut page = Vec::new(alloc);
    add_header(&mut page)?;
    add_tasks(&mut page, kern)?;
    Ok(page)
}

/// Writes the table of tasks, as the shell's `i` shows it: a header, and a row for each task by
/// priority and then by id. The free room of `out` stays the same.
///
/// # Errors
///
/// If host memory runs out, nothing is written.
pub fn task_table(alloc: Global, kern: &Kern, out: &mut OutBuf) -> Result<(), NoMemory>
    ensures ok { OnOk result (out.new ≡ with_text out.old (task_table_of kern.now)) }
    ensures err { OnErr result (out.new ≡ out.old) }
{
    let page = task_page(alloc, kern)?;
    write(out, &page)
}
