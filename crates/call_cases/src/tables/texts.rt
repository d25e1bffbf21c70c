//! Interrupts held back, and the calls that write texts.

use super::{BAD_ADDRESS, BAD_SIZE, NO_SUCH_MODULE, NOT_ISR_CALLABLE, RAM_END};
use crate::bench::{ROUTINE, SHELL};
use crate::looks::Look;
use crate::steps::{Step, Table};
use wind_base::words::{ERROR, OK};

// The mark of the shell's task, which no call at interrupt level changes.
const MARKS: [Step; 11] = [
    call!(SHELL, IntLock() => 0, 0),
    call!(SHELL, IntLock() => 1, 0),
    call!(SHELL, IntUnlock(2) => OK, 0),
    call!(SHELL, IntLock() => 0, 0),
    call!(SHELL, IntUnlock(3) => OK, 0),
    call!(ROUTINE, IntUnlock(0) => OK, 0),
    call!(SHELL, IntLock() => 1, 0),
    call!(SHELL, IntUnlock(0) => OK, 0),
    call!(ROUTINE, IntLock() => 1, 0),
    call!(SHELL, IntContext() => 0, 0),
    call!(ROUTINE, IntContext() => 1, 0),
];

const FORMAT: u32 = 0x1000;

const PUMP: u32 = 0x1020;

// If the last value is a string that can't be read, nothing is written.
const PRINTED: [Step; 7] = [
    Step::Write(FORMAT, b"%d-%s\n\0"),
    Step::Write(PUMP, b"pump\0"),
    call!(SHELL, Printf(FORMAT, 0xffff_fff9, PUMP) => 8, 0),
    call!(SHELL, Printf(FORMAT, 7, RAM_END) => ERROR, BAD_ADDRESS),
    call!(SHELL, Printf(RAM_END, 7, PUMP) => ERROR, BAD_ADDRESS),
    call!(ROUTINE, Printf(FORMAT, 7, PUMP) => ERROR, NOT_ISR_CALLABLE),
    Step::See(Look::Output(b"-7-pump\n")),
];

// The caller is shown after its gate.
const TABLE: [Step; 3] = [
    call!(SHELL, I() => OK, 0),
    call!(ROUTINE, I() => ERROR, NOT_ISR_CALLABLE),
    Step::See(Look::Output(
        b"NAME              TID PRI STATUS   PC          ERRNO      DELAY\ntShell              1   1 READY    00002001        0          0\n",
    )),
];

// Width 0 means two bytes, and 0 units mean 128 bytes. The width is checked first, then the size,
// then the address.
const DUMPED: [Step; 10] = [
    Step::Write(PUMP, b"pump\x00\x7f"),
    call!(SHELL, D(PUMP, 3, 0) => OK, 0),
    call!(SHELL, D(PUMP, 1, 4) => OK, 0),
    call!(SHELL, D(RAM_END, 65_537, 3) => ERROR, BAD_SIZE),
    call!(SHELL, D(RAM_END, 65_537, 1) => ERROR, BAD_SIZE),
    call!(SHELL, D(RAM_END, 0x4000_0001, 4) => ERROR, BAD_SIZE),
    call!(SHELL, D(RAM_END, 65_536, 1) => ERROR, BAD_ADDRESS),
    call!(SHELL, D(RAM_END - 127, 0, 1) => ERROR, BAD_ADDRESS),
    call!(ROUTINE, D(PUMP, 3, 0) => ERROR, NOT_ISR_CALLABLE),
    Step::See(Look::Output(b"00001020: 7075 6d70 007f  *pump..*\n00001020: 70756d70  *pump*\n")),
];

// The symbols whose names contain a text; there is no module yet.
const LOOKED_UP: [Step; 8] = [
    Step::Write(PUMP, b"taskId\0"),
    call!(SHELL, Lkup(PUMP) => OK, 0),
    call!(SHELL, Lkup(RAM_END) => ERROR, BAD_ADDRESS),
    call!(ROUTINE, Lkup(PUMP) => ERROR, NOT_ISR_CALLABLE),
    call!(SHELL, ModuleShow() => OK, BAD_ADDRESS),
    call!(SHELL, Unld(7) => ERROR, NO_SUCH_MODULE),
    call!(SHELL, Unld(RAM_END) => ERROR, NO_SUCH_MODULE),
    Step::See(Look::Output(
        b"taskIdSelf                0x010000f0 text\ntaskIdVerify              0x01000100 text\nMODULE                   ID       TEXT     DATA     BSS     \n",
    )),
];

pub(super) const TABLES: [Table; 5] = [
    Table {
        name: "interrupts are held back by a mark",
        steps: &MARKS,
    },
    Table {
        name: "a format is written",
        steps: &PRINTED,
    },
    Table {
        name: "the tasks are listed",
        steps: &TABLE,
    },
    Table {
        name: "memory is dumped",
        steps: &DUMPED,
    },
    Table {
        name: "symbols and modules are listed",
        steps: &LOOKED_UP,
    },
];
