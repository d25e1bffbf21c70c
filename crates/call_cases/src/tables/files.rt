//! The file that ld needs, and the names that it refuses.

use super::{BAD_ADDRESS, NO_NAME, NOT_ISR_CALLABLE, NOT_SHELL, PUMP, RAM_END, TOO_LONG};
use crate::bench::{ROUTINE, SHELL};
use crate::steps::{Step, Table};
use wind_base::words::ERROR;

// The words are the mark, noAbort and the name. A call that needs a file changes nothing.
const ASKED: [Step; 9] = [
    Step::Write(PUMP, b"pump.o\0"),
    Step::Fill(TOO_LONG, 256, b'n'),
    Step::Asks([1, 0, PUMP, 0], b"pump.o"),
    call!(SHELL, Ld(1, 0, RAM_END) => ERROR, BAD_ADDRESS),
    call!(SHELL, Ld(1, 0, NO_NAME) => ERROR, BAD_ADDRESS),
    call!(SHELL, Ld(1, 0, TOO_LONG) => ERROR, BAD_ADDRESS),
    call!(ROUTINE, Ld(1, 0, PUMP) => ERROR, NOT_ISR_CALLABLE),
    Step::Quick(0x8000, OTHER, BAD_ADDRESS),
    call!(OTHER, Ld(1, 0, PUMP) => ERROR, NOT_SHELL),
];

// The id of the task that sp makes.
const OTHER: u32 = 2;

pub(super) const TABLES: [Table; 1] = [Table {
    name: "a file is asked for by its name",
    steps: &ASKED,
}];
