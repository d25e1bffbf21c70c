//! Calls on watchdogs, from the shell's task and from an interrupt routine.

use super::{NOT_ISR_CALLABLE, OBJ_ID_ERROR};
use crate::bench::{ROUTINE, SHELL};
use crate::looks::Look;
use crate::steps::{Step, Table};
use wind_base::words::{ERROR, OK};

const WATCHDOGS: [Step; 14] = [
    call!(SHELL, WdStart(2, 5, 0x100, 7) => ERROR, OBJ_ID_ERROR),
    call!(SHELL, WdCreate(9) => 2, OBJ_ID_ERROR),
    call!(SHELL, WdCreate() => 3, OBJ_ID_ERROR),
    call!(SHELL, WdStart(2, 5, 0x100, 7) => OK, OBJ_ID_ERROR),
    call!(SHELL, WdCancel(2) => OK, OBJ_ID_ERROR),
    // a routine may start and cancel, but not make or delete
    call!(ROUTINE, WdStart(3, 0, 0x100, 7) => OK, 0),
    call!(ROUTINE, WdCancel(3) => OK, 0),
    call!(ROUTINE, WdCancel(1) => ERROR, OBJ_ID_ERROR),
    call!(ROUTINE, WdCreate() => 0, NOT_ISR_CALLABLE),
    call!(ROUTINE, WdDelete(3) => ERROR, NOT_ISR_CALLABLE),
    call!(SHELL, WdDelete(3) => OK, OBJ_ID_ERROR),
    call!(SHELL, WdDelete(3) => ERROR, OBJ_ID_ERROR),
    call!(SHELL, WdCreate() => 4, OBJ_ID_ERROR),
    Step::See(Look::Tasks(1)),
];

pub(super) const TABLES: [Table; 1] = [Table {
    name: "watchdogs come run and go",
    steps: &WATCHDOGS,
}];
