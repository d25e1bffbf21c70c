//! The texts that kernel calls write: `printf`, and the shell's tables.
#![tactic(auto)]

mod format;
mod memory;
mod modules;
mod numeral;
mod page;
mod print;
mod symbols;
mod tasks;
mod text;
mod value;
mod values;

pub use memory::dump;
pub use modules::module_rows;
pub use print::printf_text;
pub use symbols::symbol_rows;
pub use tasks::task_table;
pub use value::value_line;
