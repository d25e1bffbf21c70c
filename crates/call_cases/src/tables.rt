//! Calls over a world from its start on, with their answers worked out by hand.

// The first words of a call. The words that aren't given are 0.
macro_rules! words {
    () => { [0; 4] };
    ($a:expr) => { [$a, 0, 0, 0] };
    ($a:expr, $b:expr) => { [$a, $b, 0, 0] };
    ($a:expr, $b:expr, $c:expr) => { [$a, $b, $c, 0] };
    ($a:expr, $b:expr, $c:expr, $d:expr) => { [$a, $b, $c, $d] };
}

// A call, as a row: the caller, the gate and its words, and then r3 and the error number.
macro_rules! call {
    ($who:expr, $gate:ident($($word:expr),*) => $answer:expr, $errno:expr) => {
        crate::steps::Step::Call($who, wind_base::Gate::$gate, words!($($word),*), $answer, $errno)
    };
}

// The same for a caller that is answered later.
macro_rules! wait {
    ($who:expr, $gate:ident($($word:expr),*) => $answer:expr, $errno:expr) => {
        crate::steps::Step::Wait($who, wind_base::Gate::$gate, words!($($word),*), $answer, $errno)
    };
}

mod blocks;
mod devices;
mod files;
mod mutexes;
mod opening;
mod routines;
mod semaphores;
mod spawns;
mod symbols;
mod tasks;
mod texts;
mod watchdogs;

use crate::steps::Table;

// Error numbers, by the table in docs/calls.md.
const OBJ_ID_ERROR: u32 = 0x3d_0001;

const NOT_ENOUGH_MEMORY: u32 = 0x11_0001;

const NOT_A_BLOCK: u32 = 0x11_0002;

const BAD_ALIGN: u32 = 0x11_0003;

const BAD_ADDRESS: u32 = 0x11_0004;

const ILLEGAL_PRIORITY: u32 = 0x3_0001;

const TOO_MANY: u32 = 0x3_0003;

const TASK_NOT_FOUND: u32 = 0x3_0005;

const NOT_SAFE: u32 = 0x3_0002;

const OBJ_UNAVAILABLE: u32 = 0x3d_0002;

const INVALID_OPERATION: u32 = 0x16_0003;

const SYMBOLS_FULL: u32 = 0x1c_0001;

const BAD_KIND: u32 = 0x1c_0002;

const NOT_ISR_CALLABLE: u32 = 0x43_0001;

const NOT_SHELL: u32 = 0x43_0002;

const BAD_SIZE: u32 = 0x41_0003;

const NO_SUCH_MODULE: u32 = 0x1d_0002;

// Where names are put: one of a few bytes, an empty one, one of 40 bytes, one of 256 bytes, and
// 1,024 bytes without an end.
const PUMP: u32 = 0x1000;

const NO_NAME: u32 = 0x1020;

const FORTY: u32 = 0x1100;

const TOO_LONG: u32 = 0x1200;

const ENDLESS: u32 = 0x2000;

// The first address after RAM.
const RAM_END: u32 = 0x0100_0000;

// Where the first allocated block begins: after the stack of the shell's task and the interrupt
// stack.
const FIRST: u32 = 0x1_5e20;

// The tables, by what they are about.
pub(crate) const GROUPS: [&[Table]; 12] = [
    &opening::TABLES,
    &tasks::TABLES,
    &spawns::TABLES,
    &blocks::TABLES,
    &symbols::TABLES,
    &semaphores::TABLES,
    &mutexes::TABLES,
    &watchdogs::TABLES,
    &routines::TABLES,
    &texts::TABLES,
    &files::TABLES,
    &devices::TABLES,
];
