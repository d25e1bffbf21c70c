//! What evaluation reads and changes.

use board_bus::BoardBus;
use mem_partition::Part;
use symbol_table::Symbols;
use wind_base::OutBuf;

/// What evaluation reads and changes.
#[derive(Drop)]
pub struct Env<'a> {
    /// The symbols.
    pub syms: &'a mut Symbols,
    /// The partition, from which strings and variables take Kernel blocks.
    pub part: &'a mut Part,
    /// RAM and devices.
    pub bus: &'a mut BoardBus,
    /// The output to the console.
    pub out: &'a mut OutBuf,
}
