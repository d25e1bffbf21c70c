//! The world at its start, with ample memory.

use crate::bench::SHELL;
use crate::looks::{Look, TaskLook};
use crate::steps::{Step, Table};
use symbol_table::SymKind;

// The pool begins with stacks of 20,000 and 4,096 bytes. taskSpawn is gate 3, d is gate 51 and
// devRemove is gate 57; each gate has 16 bytes.
const STANDING: [Step; 8] = [
    Step::See(Look::Block(0x1_0000, 20_000)),
    Step::See(Look::Block(0x1_4e20, 4096)),
    Step::See(Look::Tasks(1)),
    Step::See(Look::Task(SHELL, TaskLook::Made(b"tShell", 0x1_0000, 0, 1))),
    Step::See(Look::Symbols(55)),
    Step::See(Look::Symbol(0, b"taskSpawn", 0x0100_0030, SymKind::TextSym)),
    Step::See(Look::Symbol(48, b"d", 0x0100_0330, SymKind::TextSym)),
    Step::See(Look::Symbol(54, b"devRemove", 0x0100_0390, SymKind::TextSym)),
];

pub(super) const TABLES: [Table; 1] = [Table {
    name: "the shell and the built calls are there",
    steps: &STANDING,
}];
