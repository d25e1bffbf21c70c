//! Interrupts of devices and their removal, on a board with a latch in slot 0 and one in slot 2.

use super::{INVALID_OPERATION, NOT_ISR_CALLABLE, OBJ_ID_ERROR, TOO_MANY};
use crate::bench::{ROUTINE, SHELL};
use crate::looks::Look;
use crate::steps::{Step, Table};
use wind_base::words::{ERROR, OK};

// Two routines.
const READ: u32 = 0x4000;

const WRITE: u32 = 0x5000;

// A slot without a device, and the first number that no slot has.
const EMPTY: u32 = 1;

const NO_SLOT: u32 = 16;

// A slot has at most four connections, and one routine may have several.
const CONNECTED: [Step; 9] = [
    call!(SHELL, IntConnect(0, READ, 1) => OK, 0),
    call!(SHELL, IntConnect(0, WRITE, 2) => OK, 0),
    call!(SHELL, IntConnect(0, READ, 1) => OK, 0),
    call!(SHELL, IntConnect(0, READ, 3) => OK, 0),
    call!(SHELL, IntConnect(0, WRITE, 4) => ERROR, TOO_MANY),
    call!(SHELL, IntConnect(2, WRITE, 4) => OK, TOO_MANY),
    call!(SHELL, IntConnect(EMPTY, READ, 1) => ERROR, OBJ_ID_ERROR),
    call!(SHELL, IntConnect(NO_SLOT, READ, 1) => ERROR, OBJ_ID_ERROR),
    call!(SHELL, IntConnect(0, READ, 1) => ERROR, TOO_MANY),
];

// Each call of intDisconnect ends one connection.
const DISCONNECTED: [Step; 11] = [
    call!(SHELL, IntDisconnect(0, READ) => ERROR, INVALID_OPERATION),
    call!(SHELL, IntConnect(0, READ, 1) => OK, INVALID_OPERATION),
    call!(SHELL, IntConnect(0, WRITE, 2) => OK, INVALID_OPERATION),
    call!(SHELL, IntConnect(0, READ, 3) => OK, INVALID_OPERATION),
    call!(SHELL, IntDisconnect(EMPTY, READ) => ERROR, OBJ_ID_ERROR),
    call!(SHELL, IntDisconnect(NO_SLOT, READ) => ERROR, OBJ_ID_ERROR),
    call!(SHELL, IntDisconnect(0, READ) => OK, OBJ_ID_ERROR),
    call!(SHELL, IntDisconnect(0, READ) => OK, OBJ_ID_ERROR),
    call!(SHELL, IntDisconnect(0, READ) => ERROR, INVALID_OPERATION),
    call!(SHELL, IntDisconnect(2, WRITE) => ERROR, INVALID_OPERATION),
    call!(SHELL, IntDisconnect(0, WRITE) => OK, INVALID_OPERATION),
];

// Interrupts stay pending while the slot is disabled.
const MASKED: [Step; 15] = [
    call!(SHELL, IntPending(0) => 0, 0),
    Step::Raise(0),
    Step::Raise(0),
    call!(SHELL, IntPending(0) => 2, 0),
    call!(SHELL, IntDisable(0) => OK, 0),
    Step::Raise(0),
    call!(SHELL, IntPending(0) => 3, 0),
    call!(SHELL, IntEnable(0) => OK, 0),
    call!(SHELL, IntPending(0) => 3, 0),
    call!(SHELL, IntPending(2) => 0, 0),
    call!(SHELL, IntPending(EMPTY) => ERROR, OBJ_ID_ERROR),
    call!(SHELL, IntEnable(EMPTY) => ERROR, OBJ_ID_ERROR),
    call!(SHELL, IntDisable(NO_SLOT) => ERROR, OBJ_ID_ERROR),
    call!(SHELL, ErrnoSet(0) => OK, 0),
    call!(SHELL, IntPending(0x8000_0000) => ERROR, OBJ_ID_ERROR),
];

// The slot of a removed device is empty, and nothing is pending there. The other slots stay.
const REMOVED: [Step; 14] = [
    Step::Raise(0),
    Step::Raise(2),
    call!(SHELL, DevRemove(0) => OK, 0),
    Step::See(Look::Device(0, false)),
    Step::See(Look::Pending(0, 0)),
    Step::See(Look::Device(2, true)),
    Step::See(Look::Pending(2, 1)),
    call!(SHELL, IntPending(0) => ERROR, OBJ_ID_ERROR),
    call!(SHELL, IntConnect(0, READ, 1) => ERROR, OBJ_ID_ERROR),
    call!(SHELL, ErrnoSet(0) => OK, 0),
    call!(SHELL, DevRemove(0) => ERROR, OBJ_ID_ERROR),
    call!(SHELL, DevRemove(EMPTY) => ERROR, OBJ_ID_ERROR),
    call!(SHELL, DevRemove(NO_SLOT) => ERROR, OBJ_ID_ERROR),
    call!(SHELL, IntPending(2) => 1, OBJ_ID_ERROR),
];

// An interrupt routine may mask and count, but neither connect nor remove.
const AT_INTERRUPT_LEVEL: [Step; 9] = [
    Step::Raise(2),
    call!(ROUTINE, IntDisable(2) => OK, 0),
    call!(ROUTINE, IntPending(2) => 1, 0),
    call!(ROUTINE, IntEnable(2) => OK, 0),
    call!(ROUTINE, IntEnable(EMPTY) => ERROR, OBJ_ID_ERROR),
    call!(ROUTINE, IntConnect(2, READ, 1) => ERROR, NOT_ISR_CALLABLE),
    call!(ROUTINE, IntDisconnect(2, READ) => ERROR, NOT_ISR_CALLABLE),
    call!(ROUTINE, DevRemove(2) => ERROR, NOT_ISR_CALLABLE),
    Step::See(Look::Device(2, true)),
];

pub(super) const TABLES: [Table; 5] = [
    Table {
        name: "a slot has four connections at most",
        steps: &CONNECTED,
    },
    Table {
        name: "a disconnection ends one connection",
        steps: &DISCONNECTED,
    },
    Table {
        name: "interrupts stay pending while they are disabled",
        steps: &MASKED,
    },
    Table {
        name: "a removed device is gone with its interrupts",
        steps: &REMOVED,
    },
    Table {
        name: "a routine may mask but not connect or remove",
        steps: &AT_INTERRUPT_LEVEL,
    },
];
