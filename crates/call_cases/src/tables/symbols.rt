//! symAdd, called by the shell's task.

use super::{
    BAD_ADDRESS, BAD_KIND, ENDLESS, NO_NAME, OBJ_ID_ERROR, PUMP, RAM_END, SYMBOLS_FULL, TOO_LONG,
};
use crate::bench::SHELL;
use crate::looks::Look;
use crate::steps::{Step, Table};
use symbol_table::SymKind;
use wind_base::words::{ERROR, OK};

// The table is checked first, then the name, then the kind.
const REFUSED: [Step; 13] = [
    Step::Write(PUMP, b"pump\0"),
    Step::Fill(TOO_LONG, 256, b'n'),
    Step::Fill(ENDLESS, 1024, b'e'),
    call!(SHELL, SymAdd(1, RAM_END, 5, 0) => ERROR, OBJ_ID_ERROR),
    call!(SHELL, SymAdd(0, RAM_END, 5, 0) => ERROR, BAD_ADDRESS),
    call!(SHELL, SymAdd(0, PUMP, 5, 0) => ERROR, BAD_KIND),
    call!(SHELL, SymAdd(0, NO_NAME, 5, 0) => ERROR, BAD_ADDRESS),
    call!(SHELL, SymAdd(0, PUMP, 5, 5) => ERROR, BAD_KIND),
    call!(SHELL, SymAdd(0, TOO_LONG, 5, 1) => ERROR, BAD_ADDRESS),
    call!(SHELL, SymAdd(0, ENDLESS, 5, 0) => ERROR, BAD_ADDRESS),
    Step::See(Look::Symbols(55)),
    // a name may have 255 bytes
    call!(SHELL, SymAdd(0, TOO_LONG + 1, 5, 1) => OK, BAD_ADDRESS),
    Step::See(Look::Symbols(56)),
];

const ADDED: [Step; 9] = [
    Step::Write(PUMP, b"pump\0"),
    call!(SHELL, SymAdd(0, PUMP, 50, 1) => OK, 0),
    call!(SHELL, SymAdd(0, PUMP, 60, 2) => OK, 0),
    call!(SHELL, SymAdd(0, PUMP, 70, 3) => OK, 0),
    call!(SHELL, SymAdd(0, PUMP, 80, 4) => OK, 0),
    Step::See(Look::Symbol(55, b"pump", 50, SymKind::TextSym)),
    Step::See(Look::Symbol(56, b"pump", 60, SymKind::DataSym)),
    Step::See(Look::Symbol(57, b"pump", 70, SymKind::BssSym)),
    Step::See(Look::Symbol(58, b"pump", 80, SymKind::AbsSym)),
];

// There are at most 65,536 symbols, 55 of them for calls. The kind is checked before.
const FULL: [Step; 5] = [
    Step::Write(PUMP, b"pump\0"),
    Step::AddAll(PUMP, 65_481),
    call!(SHELL, SymAdd(0, PUMP, 5, 2) => ERROR, SYMBOLS_FULL),
    call!(SHELL, SymAdd(0, PUMP, 5, 5) => ERROR, BAD_KIND),
    Step::See(Look::Symbols(65_536)),
];

pub(super) const TABLES: [Table; 3] = [
    Table {
        name: "a symbol is refused in order",
        steps: &REFUSED,
    },
    Table {
        name: "a symbol has one of four kinds",
        steps: &ADDED,
    },
    Table {
        name: "the table of symbols is full",
        steps: &FULL,
    },
];
