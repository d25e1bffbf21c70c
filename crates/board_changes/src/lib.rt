//! What a step changes of tasks, watchdogs and modules: two views of them, and the list of
//! differences. Over a run, the spans of time in which each task runs, is ready, waits, sleeps or is
//! suspended.
#![tactic(auto)]

mod awaited;
mod change;
mod laws;
mod list;
mod look;
mod modules;
mod spans;
mod tasks;
mod view;
mod waits;
mod walk;
mod watchdogs;

pub use awaited::Awaited;
pub use change::Change;
pub use laws::{replay_law, spans_law};
pub use look::{Look, Standing, look_of};
pub use modules::add_module_changes;
pub use spans::{Open, Span, Spans};
pub use tasks::add_task_changes;
pub use view::{TaskView, WatchdogView, task_view, watchdog_view};
pub use watchdogs::add_watchdog_changes;
