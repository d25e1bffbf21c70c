//! Inversion-safe mutexes under profile 1: the priorities of four tasks after each call, worked out
//! by hand.

use super::{INVALID_OPERATION, OBJ_UNAVAILABLE};
use crate::bench::{FRAME, SHELL};
use crate::looks::Look;
use crate::steps::{Step, Table};
use wind_base::words::{ERROR, OK, WAIT_FOREVER};

// The ids of the tasks, and then those of the mutexes.
const A: u32 = 2;

const B: u32 = 3;

const C: u32 = 4;

const D: u32 = 5;

const M1: u32 = 6;

const M2: u32 = 7;

const M3: u32 = 8;

// SEM_Q_PRIORITY and SEM_INVERSION_SAFE.
const INHERITED: u32 = 9;

// The four tasks have these priorities now.
macro_rules! now {
    ($a:expr, $b:expr, $c:expr, $d:expr) => {
        Step::See(Look::Priorities(A, [$a, $b, $c, $d]))
    };
}

// B waits for A, C for B, and D for C.
const CHAIN: [Step; 15] = [
    Step::Spawn(FRAME, [0, 150, 0], A, 0),
    Step::Spawn(FRAME, [0, 160, 0], B, 0),
    Step::Spawn(FRAME, [0, 170, 0], C, 0),
    Step::Spawn(FRAME, [0, 10, 0], D, 0),
    call!(SHELL, SemMCreate(INHERITED) => M1, 0),
    call!(SHELL, SemMCreate(INHERITED) => M2, 0),
    call!(SHELL, SemMCreate(INHERITED) => M3, 0),
    call!(A, SemTake(M1, WAIT_FOREVER) => OK, 0),
    call!(B, SemTake(M2, WAIT_FOREVER) => OK, 0),
    wait!(B, SemTake(M1, WAIT_FOREVER) => M1, 0),
    call!(C, SemTake(M3, WAIT_FOREVER) => OK, 0),
    wait!(C, SemTake(M2, WAIT_FOREVER) => M2, 0),
    now!(150, 160, 170, 10),
    wait!(D, SemTake(M3, WAIT_FOREVER) => M3, 0),
    now!(10, 10, 10, 10),
];

// A and B wait for each other. D waits for A, so A and then B inherit its priority; the walk ends
// at A.
const CYCLE: [Step; 13] = [
    Step::Spawn(FRAME, [0, 150, 0], A, 0),
    Step::Spawn(FRAME, [0, 160, 0], B, 0),
    Step::Spawn(FRAME, [0, 170, 0], C, 0),
    Step::Spawn(FRAME, [0, 10, 0], D, 0),
    call!(SHELL, SemMCreate(INHERITED) => M1, 0),
    call!(SHELL, SemMCreate(INHERITED) => M2, 0),
    call!(A, SemTake(M1, WAIT_FOREVER) => OK, 0),
    call!(B, SemTake(M2, WAIT_FOREVER) => OK, 0),
    wait!(A, SemTake(M2, WAIT_FOREVER) => M2, 0),
    wait!(B, SemTake(M1, WAIT_FOREVER) => M1, 0),
    now!(150, 150, 170, 10),
    wait!(D, SemTake(M1, WAIT_FOREVER) => M1, 0),
    now!(10, 10, 170, 10),
];

// A owns two mutexes; D waits for the first, B for the second. A gets its normal priority back
// after the last give.
const TWO: [Step; 26] = [
    Step::Spawn(FRAME, [0, 150, 0], A, 0),
    Step::Spawn(FRAME, [0, 50, 0], B, 0),
    Step::Spawn(FRAME, [0, 170, 0], C, 0),
    Step::Spawn(FRAME, [0, 10, 0], D, 0),
    call!(SHELL, SemMCreate(INHERITED) => M1, 0),
    call!(SHELL, SemMCreate(INHERITED) => M2, 0),
    call!(A, SemTake(M1, WAIT_FOREVER) => OK, 0),
    call!(A, SemTake(M2, WAIT_FOREVER) => OK, 0),
    call!(A, SemTake(M2, WAIT_FOREVER) => OK, 0),
    now!(150, 50, 170, 10),
    wait!(D, SemTake(M1, WAIT_FOREVER) => M1, 0),
    now!(10, 50, 170, 10),
    wait!(B, SemTake(M2, WAIT_FOREVER) => M2, 0),
    now!(10, 50, 170, 10),
    call!(SHELL, TaskPrioritySet(A, 200) => OK, 0),
    now!(10, 50, 170, 10),
    call!(SHELL, TaskPrioritySet(A, 150) => OK, 0),
    call!(A, SemGive(M1) => OK, 0),
    now!(10, 50, 170, 10),
    call!(A, SemGive(M2) => OK, 0),
    now!(10, 50, 170, 10),
    call!(A, SemGive(M2) => OK, 0),
    now!(150, 50, 170, 10),
    call!(A, SemGive(M2) => ERROR, INVALID_OPERATION),
    call!(A, SemTake(M1, 0) => ERROR, OBJ_UNAVAILABLE),
    now!(150, 50, 170, 10),
];

// C waits for B, and B for A. A becomes more urgent, then less; then C becomes more urgent, and the
// owners that it waits for inherit that.
const SET: [Step; 18] = [
    Step::Spawn(FRAME, [0, 150, 0], A, 0),
    Step::Spawn(FRAME, [0, 160, 0], B, 0),
    Step::Spawn(FRAME, [0, 170, 0], C, 0),
    Step::Spawn(FRAME, [0, 10, 0], D, 0),
    call!(SHELL, SemMCreate(INHERITED) => M1, 0),
    call!(SHELL, SemMCreate(INHERITED) => M2, 0),
    call!(A, SemTake(M1, WAIT_FOREVER) => OK, 0),
    call!(B, SemTake(M2, WAIT_FOREVER) => OK, 0),
    wait!(B, SemTake(M1, WAIT_FOREVER) => M1, 0),
    wait!(C, SemTake(M2, WAIT_FOREVER) => M2, 0),
    call!(SHELL, TaskPrioritySet(A, 155) => OK, 0),
    now!(150, 160, 170, 10),
    call!(SHELL, TaskPrioritySet(C, 180) => OK, 0),
    now!(150, 160, 180, 10),
    call!(SHELL, TaskPrioritySet(C, 100) => OK, 0),
    now!(100, 100, 100, 10),
    call!(SHELL, TaskPrioritySet(B, 90) => OK, 0),
    now!(90, 90, 100, 10),
];

pub(super) const TABLES: [Table; 4] = [
    Table {
        name: "priorities go along a chain of three owners",
        steps: &CHAIN,
    },
    Table {
        name: "priorities go once round a cycle of two owners",
        steps: &CYCLE,
    },
    Table {
        name: "an owner of two mutexes keeps a priority until the last give",
        steps: &TWO,
    },
    Table {
        name: "a normal priority that is set is inherited",
        steps: &SET,
    },
];
