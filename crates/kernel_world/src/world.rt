//! The world of the kernel's calls.

use crate::objects::Objects;
use board_bus::BoardBus;
use dev_irq::Irqs;
use isr_watch::Watch;
use mem_partition::Part;
use module_loader::Modules;
use symbol_table::Symbols;
use wind_base::{BoardKind, OutBuf};
use wind_core::Kern;

/// All that a kernel call may read or change.
#[derive(Drop)]
pub struct World {
    /// The kernel's tasks and counters.
    pub kern: Kern,
    /// Its semaphores, mutexes and message queues.
    pub objects: Objects,
    /// The memory partition.
    pub part: Part,
    /// The symbols.
    pub syms: Symbols,
    /// The modules.
    pub mods: Modules,
    /// RAM and the device slots.
    pub bus: BoardBus,
    /// The interrupt line of each slot.
    pub irqs: Irqs,
    /// The bytes that the step has written.
    pub out: OutBuf,
    /// The number that the next task without a name takes.
    pub names: u64,
    /// The watchdogs, the active interrupt routine and the listed ones.
    pub watch: Watch,
    /// The last error number at interrupt level.
    pub int_errno: u32,
    /// The kind of the board.
    pub board: BoardKind,
}
