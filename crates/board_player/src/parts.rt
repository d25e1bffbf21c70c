//! All that a board is made of.

use crate::clock::Clock;
use board_actors::{Feed, Shell};
use con_line::Console;
use live_loading::World;
use std::alloc::Global;
use tick_file::Schedule;
use wind_base::OutBuf;

/// All that a board is made of.
#[derive(Drop)]
pub struct Parts {
    pub(crate) alloc: Global,
    pub(crate) feed: Feed,
    pub(crate) console: Console,
    pub(crate) shell: Shell,
    pub(crate) world: World,
    pub(crate) schedule: Schedule,
    pub(crate) clock: Clock,
    /// Holds what the step before wrote, during a step that may run out of memory.
    pub(crate) spare: OutBuf,
}
