//! The calls on tasks, from the shell's task.

use super::{
    BAD_ADDRESS, ENDLESS, ILLEGAL_PRIORITY, NO_NAME, OBJ_ID_ERROR, RAM_END, TASK_NOT_FOUND,
};
use crate::bench::{ROUTINE, SHELL};
use crate::looks::{Look, TaskLook};
use crate::steps::{Step, Table};
use wind_base::words::{ERROR, OK};

// The id of a task that doesn't live, and a number that isn't a task's id.
const NOBODY: u32 = 2;

const ABOVE_ALL: u32 = 0xffff_ffff;

const IDS: [Step; 10] = [
    call!(SHELL, TaskIdSelf() => SHELL, 0),
    call!(SHELL, ErrnoGet(7) => 0, 0),
    call!(SHELL, TaskIdVerify(SHELL) => OK, 0),
    call!(SHELL, TaskIdVerify(NOBODY) => ERROR, OBJ_ID_ERROR),
    call!(SHELL, ErrnoGet() => OBJ_ID_ERROR, OBJ_ID_ERROR),
    // a call that succeeds leaves the error number as it was
    call!(SHELL, TaskIdVerify(SHELL) => OK, OBJ_ID_ERROR),
    call!(SHELL, ErrnoSet(ABOVE_ALL) => OK, ABOVE_ALL),
    call!(SHELL, ErrnoGet() => ABOVE_ALL, ABOVE_ALL),
    // 0 isn't a task's id
    call!(SHELL, TaskIdVerify(0) => ERROR, OBJ_ID_ERROR),
    call!(SHELL, TaskIdVerify(ABOVE_ALL) => ERROR, OBJ_ID_ERROR),
];

// 0 is the caller. Only another caller can resume it.
const SUSPENSIONS: [Step; 6] = [
    call!(SHELL, TaskSuspend(NOBODY) => ERROR, OBJ_ID_ERROR),
    call!(SHELL, TaskResume(NOBODY) => ERROR, OBJ_ID_ERROR),
    call!(SHELL, TaskSuspend(0) => OK, OBJ_ID_ERROR),
    Step::See(Look::Task(SHELL, TaskLook::Suspended(true))),
    call!(ROUTINE, TaskResume(SHELL) => OK, 0),
    Step::See(Look::Task(SHELL, TaskLook::Suspended(false))),
];

// The task is checked first. The priority goes to any address if all four bytes there are in RAM.
const PRIORITIES: [Step; 11] = [
    call!(SHELL, TaskPrioritySet(0, 256) => ERROR, ILLEGAL_PRIORITY),
    call!(SHELL, TaskPrioritySet(NOBODY, 256) => ERROR, OBJ_ID_ERROR),
    call!(SHELL, TaskPrioritySet(SHELL, ABOVE_ALL) => ERROR, ILLEGAL_PRIORITY),
    Step::See(Look::Task(SHELL, TaskLook::Priorities(1, 1))),
    call!(SHELL, TaskPrioritySet(0, 255) => OK, ILLEGAL_PRIORITY),
    Step::See(Look::Task(SHELL, TaskLook::Priorities(255, 255))),
    call!(SHELL, TaskPriorityGet(0, RAM_END - 3) => ERROR, BAD_ADDRESS),
    call!(SHELL, TaskPriorityGet(NOBODY, RAM_END) => ERROR, OBJ_ID_ERROR),
    call!(SHELL, TaskPriorityGet(0, 0x3001) => OK, OBJ_ID_ERROR),
    Step::See(Look::Word(0x3001, 255)),
    call!(SHELL, TaskPriorityGet(SHELL, RAM_END - 4) => OK, OBJ_ID_ERROR),
];

const TIMES: [Step; 11] = [
    // unlocking does nothing if there is no lock
    call!(SHELL, TaskUnlock() => OK, 0),
    call!(SHELL, TaskLock() => OK, 0),
    call!(SHELL, TaskLock() => OK, 0),
    call!(SHELL, TaskUnlock() => OK, 0),
    Step::See(Look::Task(SHELL, TaskLook::Locks(1))),
    call!(SHELL, KernelTimeSlice(5) => OK, 0),
    // no tick has occurred
    call!(SHELL, TickGet(5) => 0, 0),
    call!(SHELL, TaskDelay(0) => OK, 0),
    Step::See(Look::Task(SHELL, TaskLook::Wake(None))),
    // a delay leaves r3 as it was until it ends
    wait!(SHELL, TaskDelay(3) => 3, 0),
    Step::See(Look::Task(SHELL, TaskLook::Wake(Some(3)))),
];

// Where the names of tasks are.
const OWN_NAME: u32 = 0x1000;

const OTHER_NAME: u32 = 0x1010;

const NAMES: [Step; 11] = [
    Step::Write(OWN_NAME, b"tShell\0"),
    Step::Write(OTHER_NAME, b"pump\0"),
    Step::Fill(ENDLESS, 1024, b'e'),
    call!(SHELL, TaskNameToId(OWN_NAME) => SHELL, 0),
    call!(SHELL, TaskNameToId(OTHER_NAME) => ERROR, TASK_NOT_FOUND),
    call!(SHELL, TaskNameToId(RAM_END) => ERROR, BAD_ADDRESS),
    // the whole name is compared
    call!(SHELL, TaskNameToId(OWN_NAME + 1) => ERROR, TASK_NOT_FOUND),
    // a string has at most 1,023 bytes
    call!(SHELL, TaskNameToId(ENDLESS) => ERROR, BAD_ADDRESS),
    call!(SHELL, TaskNameToId(ENDLESS + 1) => ERROR, TASK_NOT_FOUND),
    call!(SHELL, ErrnoSet(0) => OK, 0),
    call!(SHELL, TaskNameToId(NO_NAME) => ERROR, TASK_NOT_FOUND),
];

pub(super) const TABLES: [Table; 5] = [
    Table {
        name: "ids and error numbers are told",
        steps: &IDS,
    },
    Table {
        name: "a task is suspended until it is resumed",
        steps: &SUSPENSIONS,
    },
    Table {
        name: "a priority is set and told",
        steps: &PRIORITIES,
    },
    Table {
        name: "locks count, and a delay begins",
        steps: &TIMES,
    },
    Table {
        name: "a task is found by its name",
        steps: &NAMES,
    },
];
