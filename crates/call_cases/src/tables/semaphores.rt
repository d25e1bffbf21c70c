//! Semaphores, mutexes, safe sections and deletions, with two tasks and the shell's.

use super::{INVALID_OPERATION, NOT_ISR_CALLABLE, NOT_SAFE, OBJ_ID_ERROR, OBJ_UNAVAILABLE};
use crate::bench::{FRAME, ROUTINE, SHELL};
use crate::looks::{Look, TaskLook};
use crate::steps::{Step, Table};
use wind_base::words::{ERROR, OK, WAIT_FOREVER};

// The ids of the task with priority 100, the task with priority 50, and the object that is made
// after them.
const A: u32 = 2;

const B: u32 = 3;

const OBJECT: u32 = 4;

// SEM_Q_PRIORITY, and the same with SEM_INVERSION_SAFE.
const BY_PRIORITY: u32 = 1;

const INHERITED: u32 = 9;

// A begins to wait before B, but B gets the semaphore first.
const HANDED: [Step; 11] = [
    Step::Spawn(FRAME, [0, 100, 0], A, 0),
    Step::Spawn(FRAME, [0, 50, 0], B, 0),
    call!(SHELL, SemBCreate(BY_PRIORITY, 0) => OBJECT, 0),
    wait!(A, SemTake(OBJECT, WAIT_FOREVER) => OBJECT, 0),
    wait!(B, SemTake(OBJECT, WAIT_FOREVER) => OBJECT, 0),
    call!(ROUTINE, SemGive(OBJECT) => OK, 0),
    Step::See(Look::Task(A, TaskLook::Waits(true))),
    Step::See(Look::Task(B, TaskLook::Waits(false))),
    call!(SHELL, SemGive(OBJECT) => OK, 0),
    Step::See(Look::Task(A, TaskLook::Waits(false))),
    call!(SHELL, SemTake(OBJECT, 0) => ERROR, OBJ_UNAVAILABLE),
];

// A has B's priority while B waits for A's mutex.
const LENT: [Step; 12] = [
    Step::Spawn(FRAME, [0, 100, 0], A, 0),
    Step::Spawn(FRAME, [0, 50, 0], B, 0),
    call!(SHELL, SemMCreate(INHERITED) => OBJECT, 0),
    call!(A, SemTake(OBJECT, WAIT_FOREVER) => OK, 0),
    wait!(B, SemTake(OBJECT, WAIT_FOREVER) => OBJECT, 0),
    Step::See(Look::Task(A, TaskLook::Priorities(50, 100))),
    call!(SHELL, SemGive(OBJECT) => ERROR, INVALID_OPERATION),
    call!(ROUTINE, SemGive(OBJECT) => ERROR, NOT_ISR_CALLABLE),
    call!(A, SemGive(OBJECT) => OK, 0),
    Step::See(Look::Task(A, TaskLook::Priorities(100, 100))),
    Step::See(Look::Task(B, TaskLook::Waits(false))),
    call!(B, SemDelete(OBJECT) => OK, 0),
];

// The shell's task calls for the deletion of a task that is safe, and calls again when the safe
// section ends.
const GUARDED: [Step; 12] = [
    Step::Spawn(FRAME, [0, 100, 0], A, 0),
    Step::Spawn(FRAME, [0, 50, 0], B, 0),
    call!(A, TaskSafe() => OK, 0),
    Step::Await(SHELL, A),
    call!(A, TaskUnsafe() => OK, 0),
    Step::See(Look::Task(SHELL, TaskLook::Waits(false))),
    call!(A, TaskUnsafe() => ERROR, NOT_SAFE),
    call!(SHELL, TaskDelete(A) => OK, 0),
    Step::Leave(B),
    Step::See(Look::Tasks(1)),
    call!(SHELL, TaskDelete(A) => ERROR, OBJ_ID_ERROR),
    call!(SHELL, TaskDelete(SHELL) => ERROR, INVALID_OPERATION),
];

pub(super) const TABLES: [Table; 3] = [
    Table {
        name: "the more urgent task is handed the semaphore",
        steps: &HANDED,
    },
    Table {
        name: "the owner of a mutex inherits a priority",
        steps: &LENT,
    },
    Table {
        name: "a task is deleted when it is safe no more",
        steps: &GUARDED,
    },
];
