//! A board as JSON: its tasks, objects, blocks, symbols, modules, devices and RAM.
#![tactic(auto)]

mod board;
mod json;
mod memory;
mod modules;
mod objects;
mod slots;
mod tasks;

pub use board::{state_text, time_shown};
pub use board_reading::{
    empty_snapshot, last_actor, look_after, look_before, retake_task, running_task, take_snapshot,
};
pub use json::{Items, Members, id_or_null, number_or_null};
pub use tasks::wait_value;
