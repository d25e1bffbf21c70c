//! Calls from an interrupt routine.

use super::{BAD_ADDRESS, ILLEGAL_PRIORITY, NOT_ISR_CALLABLE, OBJ_ID_ERROR, RAM_END};
use crate::bench::{ROUTINE, SHELL};
use crate::looks::Look;
use crate::steps::{Step, Table};
use wind_base::words::{ERROR, OK};

// At interrupt level, id 0 means no task.
const ALLOWED: [Step; 17] = [
    call!(ROUTINE, TaskSuspend(SHELL) => OK, 0),
    call!(ROUTINE, TaskSuspend(0) => ERROR, OBJ_ID_ERROR),
    call!(ROUTINE, TaskResume(SHELL) => OK, OBJ_ID_ERROR),
    call!(ROUTINE, ErrnoSet(7) => OK, 7),
    call!(ROUTINE, ErrnoGet() => 7, 7),
    call!(ROUTINE, TaskResume(0) => ERROR, OBJ_ID_ERROR),
    call!(ROUTINE, TaskPrioritySet(SHELL, 256) => ERROR, ILLEGAL_PRIORITY),
    call!(ROUTINE, TaskPrioritySet(0, 9) => ERROR, OBJ_ID_ERROR),
    call!(ROUTINE, TaskPrioritySet(SHELL, 9) => OK, OBJ_ID_ERROR),
    call!(ROUTINE, TaskPriorityGet(SHELL, RAM_END) => ERROR, BAD_ADDRESS),
    call!(ROUTINE, TaskPriorityGet(0, 0x3000) => ERROR, OBJ_ID_ERROR),
    call!(ROUTINE, TaskPriorityGet(SHELL, 0x3000) => OK, OBJ_ID_ERROR),
    Step::See(Look::Word(0x3000, 9)),
    call!(ROUTINE, TickGet(5) => 0, OBJ_ID_ERROR),
    call!(ROUTINE, TaskIdVerify(SHELL) => OK, OBJ_ID_ERROR),
    call!(ROUTINE, TaskIdVerify(0) => ERROR, OBJ_ID_ERROR),
    // a task has its own error number
    call!(SHELL, ErrnoGet(5) => 0, 0),
];

// The other calls are refused, whatever their arguments are.
const REFUSED: [Step; 13] = [
    call!(ROUTINE, TaskSpawn(0, 256) => ERROR, NOT_ISR_CALLABLE),
    call!(ROUTINE, Sp() => ERROR, NOT_ISR_CALLABLE),
    call!(ROUTINE, TaskDelay(0) => ERROR, NOT_ISR_CALLABLE),
    call!(ROUTINE, TaskLock() => ERROR, NOT_ISR_CALLABLE),
    call!(ROUTINE, TaskUnlock() => ERROR, NOT_ISR_CALLABLE),
    call!(ROUTINE, TaskIdSelf() => ERROR, NOT_ISR_CALLABLE),
    call!(ROUTINE, TaskNameToId(RAM_END) => ERROR, NOT_ISR_CALLABLE),
    call!(ROUTINE, KernelTimeSlice(5) => ERROR, NOT_ISR_CALLABLE),
    // these answer an address
    call!(ROUTINE, Malloc(16) => 0, NOT_ISR_CALLABLE),
    call!(ROUTINE, Memalign(3, 16) => 0, NOT_ISR_CALLABLE),
    call!(ROUTINE, Free(0) => ERROR, NOT_ISR_CALLABLE),
    call!(ROUTINE, SymAdd(1, 0, 0, 0) => ERROR, NOT_ISR_CALLABLE),
    Step::See(Look::Tasks(1)),
];

pub(super) const TABLES: [Table; 2] = [
    Table {
        name: "a routine calls on tasks",
        steps: &ALLOWED,
    },
    Table {
        name: "a routine may not make the calls of tasks",
        steps: &REFUSED,
    },
];
