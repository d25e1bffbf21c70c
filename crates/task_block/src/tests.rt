//! Tests of a task in each of its states.

use crate::Task;
use id_table::{Ident, Place};
use std::test::Fail;
use wind_base::{Pri, Regs, ShortName};

// A task with the given state.
fn task(waits: bool, wakes: bool, suspended: bool) -> Option<Task> {
    let id = Ident::new(1)?;
    let pri = Pri::new(100)?;
    Some(Task {
        id,
        name: ShortName::cut(b"t1"),
        entry: 0x1000,
        stack: 0x2000,
        stack_size: 0x1000,
        pri,
        normal: pri,
        since: 1,
        wait: if waits {
            Some(Place { side: 0, id })
        } else {
            None
        },
        fifo: false,
        wake: if wakes { Some(5) } else { None },
        suspended,
        locks: 0,
        safe: 0,
        held: 0,
        int_locked: false,
        turns: 0,
        regs: Regs {
            gpr: [0; 32],
            cr: 0,
            xer: 0,
            lr: 0,
            ctr: 0,
            pc: 0x1000,
            reserve: None,
        },
        errno: 0,
        again: false,
    })
}

// Whether a task waits, whether it has a tick at which it wakes, whether it is suspended, and its
// word.
const ROWS: [(bool, bool, bool, &str); 8] = [
    (false, false, false, "READY"),
    (true, false, false, "PEND"),
    (true, true, false, "PEND+T"),
    (false, true, false, "DELAY"),
    (false, false, true, "SUSPEND"),
    (true, false, true, "PEND+S"),
    (true, true, true, "PEND+T+S"),
    (false, true, true, "DELAY+S"),
];

#[test]
fn tells_how_a_task_stands(rt: HostRuntime) -> Result<(), Fail> {
    for (waits, wakes, suspended, word) in ROWS {
        let Some(task) = task(waits, wakes, suspended) else {
            return Err("no task".into());
        };
        assert_eq!(rt; task.status().bytes(), word.as_bytes());
        assert_eq!(rt; task.ready(), word == "READY");
    }
    Ok(())
}
