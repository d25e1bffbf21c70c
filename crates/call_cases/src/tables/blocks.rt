//! The calls on the memory partition, made by the shell's task.

use super::{BAD_ALIGN, FIRST, NOT_A_BLOCK, NOT_ENOUGH_MEMORY, RAM_END};
use crate::bench::SHELL;
use crate::steps::{Step, Table};
use wind_base::words::{ERROR, OK};

// Sizes are rounded up to 16 bytes.
const GIVEN: [Step; 9] = [
    call!(SHELL, Malloc(1) => FIRST, 0),
    call!(SHELL, Malloc(0) => FIRST + 16, 0),
    call!(SHELL, Malloc(17) => FIRST + 32, 0),
    call!(SHELL, Malloc(RAM_END) => 0, NOT_ENOUGH_MEMORY),
    call!(SHELL, Free(FIRST + 16) => OK, NOT_ENOUGH_MEMORY),
    call!(SHELL, Malloc(17) => FIRST + 64, NOT_ENOUGH_MEMORY),
    call!(SHELL, Malloc(16) => FIRST + 16, NOT_ENOUGH_MEMORY),
    // one byte more than is left, and exactly what is left
    call!(SHELL, Malloc(RAM_END - FIRST - 95) => 0, NOT_ENOUGH_MEMORY),
    call!(SHELL, Malloc(RAM_END - FIRST - 96) => FIRST + 96, NOT_ENOUGH_MEMORY),
];

const FREED: [Step; 10] = [
    call!(SHELL, Malloc(32) => FIRST, 0),
    call!(SHELL, Free(0) => OK, 0),
    // inside a block, and the same block twice
    call!(SHELL, Free(FIRST + 16) => ERROR, NOT_A_BLOCK),
    call!(SHELL, Free(FIRST) => OK, NOT_A_BLOCK),
    call!(SHELL, ErrnoSet(0) => OK, 0),
    call!(SHELL, Free(FIRST) => ERROR, NOT_A_BLOCK),
    call!(SHELL, Free(RAM_END) => ERROR, NOT_A_BLOCK),
    call!(SHELL, ErrnoSet(0) => OK, 0),
    // the stacks of the shell's task and of the interrupt level
    call!(SHELL, Free(0x1_0000) => ERROR, NOT_A_BLOCK),
    call!(SHELL, Free(FIRST - 4096) => ERROR, NOT_A_BLOCK),
];

// The alignment is checked first.
const ALIGNED: [Step; 8] = [
    call!(SHELL, Memalign(3, 16) => 0, BAD_ALIGN),
    call!(SHELL, Memalign(16, RAM_END) => 0, NOT_ENOUGH_MEMORY),
    call!(SHELL, Memalign(0, 16) => 0, BAD_ALIGN),
    call!(SHELL, ErrnoSet(0) => OK, 0),
    call!(SHELL, Memalign(0x2_0000, RAM_END) => 0, BAD_ALIGN),
    call!(SHELL, Memalign(1, 17) => FIRST, BAD_ALIGN),
    call!(SHELL, Memalign(0x1_0000, 16) => 0x2_0000, BAD_ALIGN),
    // after the first block
    call!(SHELL, Memalign(64, 16) => FIRST + 32, BAD_ALIGN),
];

pub(super) const TABLES: [Table; 3] = [
    Table {
        name: "a block lies at the least address that fits",
        steps: &GIVEN,
    },
    Table {
        name: "a block is freed once at its address",
        steps: &FREED,
    },
    Table {
        name: "an alignment is a power of two",
        steps: &ALIGNED,
    },
];
