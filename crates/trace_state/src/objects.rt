//! The kernel's objects as JSON.

ghost use Rattle.std.specs.Prelude.{◌≡◌, IfOk};
ghost use Rattle.std.specs.Option.{option_map};
ghost use Rattle.serde_json.specs.View.{view};
ghost use Rattle.trace_state.specs.Json.{list_of, number_or_null as number_or_null_lem};
ghost use Rattle.trace_state.specs.Objects.{kind_word as kind_word_lem, level_data, rows_data, watchdog_data};

use crate::json::{Items, Members, id_or_null, number_or_null};
use id_table::Table;
use inheritance::Mutex;
use isr_watch::{Timer, Watch, Watchdog};
use msg_queue::Queue;
use sem_plain::Semaphore;
use serde_json::Value;
use std::alloc::{AllocError, Global};
use wind_base::SemKind;

/// An object of the kernel that can be shown as JSON.
trait Shown {
    ghost use Rattle.std.specs.Prelude.{◌≡◌, ℕ, IfOk};
    ghost use Rattle.serde_json.specs.Data.{Data};
    ghost use Rattle.serde_json.specs.View.{view};

    ghost data_of: { ℕ → Self → Data };

    /// The object as JSON, with its id.
    fn to_json(&self, alloc: Global, id: u32) -> Result<Value, AllocError>
        ensures { IfOk result (λ v. view v ≡ data_of id self.now) };
}

/// The objects of a table, by rising id.
pub(crate) fn rows<T: Shown>(alloc: Global, table: &Table<T>) -> Result<Value, AllocError>
    ensures { IfOk result (λ v. view v ≡ rows_data T.data_of table.now.rows) }
{
    let mut items = Items::new(alloc);
    for place in 0..table.len() {
        let id = table.id_at(place).get();
        items.add(table.value_at(place).to_json(alloc, id)?)?;
    }
    Ok(items.finish())
}

// The word for a kind of semaphore.
fn kind_word(kind: SemKind) -> &'static str
    ensures { result.now ≡ kind_word_lem kind }
{
    match kind {
        SemKind::Binary => "binary",
        SemKind::Counting => "counting",
        SemKind::Mutex => "mutex",
    }
}

impl Shown for Semaphore {
    ghost use Rattle.trace_state.specs.Objects.{semaphore_data};

    ghost data_of = { semaphore_data };

    fn to_json(&self, alloc: Global, id: u32) -> Result<Value, AllocError> {
        let mut members = Members::new(alloc);
        members.put_number("id", u64::from(id))?;
        members.put_word("kind", kind_word(self.kind))?;
        members.put_number("count", u64::from(self.count))?;
        members.put_flag("by_priority", self.options.is_priority())?;
        Ok(members.finish())
    }
}

impl Shown for Mutex {
    ghost use Rattle.trace_state.specs.Objects.{mutex_data};

    ghost data_of = { mutex_data };

    fn to_json(&self, alloc: Global, id: u32) -> Result<Value, AllocError> {
        let mut members = Members::new(alloc);
        members.put_number("id", u64::from(id))?;
        members.put("owner", id_or_null(self.owner))?;
        members.put_number("depth", self.depth)?;
        members.put_flag("by_priority", self.by_priority)?;
        members.put_flag("delete_safe", self.delete_safe)?;
        members.put_flag("inversion_safe", self.inversion_safe)?;
        Ok(members.finish())
    }
}

impl Shown for Queue {
    ghost use Rattle.trace_state.specs.Objects.{queue_data};

    ghost data_of = { queue_data };

    fn to_json(&self, alloc: Global, id: u32) -> Result<Value, AllocError> {
        let mut members = Members::new(alloc);
        members.put_number("id", u64::from(id))?;
        members.put_number("max_msgs", u64::from(self.max_msgs()))?;
        members.put_number("max_len", u64::from(self.max_len()))?;
        members.put_number("held", u64::from(self.count()))?;
        members.put_flag("by_priority", self.by_priority())?;
        Ok(members.finish())
    }
}

// The tick at which a timer is due.
fn due(timer: Option<Timer>) -> Option<u64>
    ensures { result ≡ option_map (λ t. t.due) timer }
{
    match timer {
        Some(timer) => Some(timer.due),
        None => None,
    }
}

impl Shown for Watchdog {
    ghost use Rattle.trace_state.specs.Objects.{watchdog_data};

    ghost data_of = { λ id w. watchdog_data w };

    fn to_json(&self, alloc: Global, _id: u32) -> Result<Value, AllocError> {
        let mut members = Members::new(alloc);
        members.put_number("id", u64::from(self.id.get()))?;
        members.put("due", number_or_null(due(self.timer)))?;
        members.put_number("routine", u64::from(self.routine.entry))?;
        members.put_number("param", u64::from(self.routine.param))?;
        Ok(members.finish())
    }
}

/// The watchdogs, by rising id.
pub(crate) fn watchdogs(alloc: Global, watch: &Watch) -> Result<Value, AllocError>
    ensures { IfOk result (λ v. view v ≡ list_of watchdog_data watch.now.watchdogs) }
{
    rows(alloc, watch.watchdogs())
}

// The program counter of the active routine, or null.
fn counter(watch: &Watch) -> Value
    ensures { view result ≡ number_or_null_lem (option_map (λ r. r.pc) watch.now.level) }
{
    match watch.regs() {
        Some(regs) => Value::from(regs.pc),
        None => Value::Null,
    }
}

/// The interrupt level: the program counter of the active routine, if one is active, and the last
/// error number.
pub(crate) fn level(alloc: Global, watch: &Watch, errno: u32) -> Result<Value, AllocError>
    ensures { IfOk result (λ v. view v ≡ level_data watch.now.level errno) }
{
    let mut members = Members::new(alloc);
    members.put("pc", counter(watch))?;
    members.put_number("errno", u64::from(errno))?;
    Ok(members.finish())
}
