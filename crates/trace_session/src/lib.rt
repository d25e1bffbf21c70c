//! A traced session: what the arguments ask for, the run of a board, its trace as lines, as a
//! picture or as the board that it leaves, and how the run ended.
#![tactic(auto)]

mod charter;
mod choice;
mod choosing;
mod chrome;
mod command;
mod counter;
mod counters;
mod coverage;
mod ending;
mod events;
mod forms;
mod kinds;
mod laws;
mod line_forms;
mod numbers;
mod observer;
mod part_spans;
mod playing;
mod program;
mod put;
mod reader;
mod scene;
mod shown;
mod state;
mod summary;
mod timeline;
mod traced;
mod tracer;
mod watch;

pub use choice::{Choice, Kind};
pub use command::{TraceCommand, trace_command_of};
pub use ending::TraceEnding;
pub use forms::{Form, trace_board};
pub use laws::{
    chart_law, everything_law, lines_law, part_law, summary_spans_law, summary_tasks_law,
};
pub use playing::trace;
pub use program::trace_program;
pub use traced::{Product, TracedRun};
