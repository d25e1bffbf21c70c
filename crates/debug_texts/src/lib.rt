//! The texts of replies to gdb, as functions of plain values: the description of the target, the
//! values of its registers, the lists of threads and modules, the map of the memory, stops, and the
//! parts of a long text.
#![tactic(auto)]

mod laws;
mod lists;
mod parts;
mod stop;
mod target;
#[cfg(test)]
mod tests;
mod xml;

pub use laws::parts_law;
pub use lists::{
    add_library, add_library_path, add_memory_map, add_thread, begin_libraries, begin_threads,
    end_libraries, end_threads,
};
pub use parts::add_part;
pub use stop::{Cause, Signal, Stop, add_done, add_refused, add_stop, add_supported};
pub use target::{add_registers, add_target};
