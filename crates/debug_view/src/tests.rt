//! What is told of the memory and of a world at the start, as in recorded conversations.

use crate::ended::{Ended, gone_in, last_of};
use crate::memory::{add_memory, is_watchable};
use crate::modules::are_loaded;
use crate::stopping::named_thread;
use crate::threads::{INTERRUPT_THREAD, is_told, thread_of};
use board_mem::Ram;
use id_table::Ident;
use kernel_world::{Actor, World};
use std::alloc::Global;
use std::process::Abort;
use std::test::Fail;
use wind_base::{BoardKind, Profile};

const RAM_BYTES: u32 = 0x100_0000;

// An address, a count, and the reply.
const MEMORY: [(u64, u64, &str); 9] = [
    (
        0xff_fff0,
        0x20,
        "00000000000000000000000000000000440000024e8000200000000000000000",
    ),
    (0xff_fffc, 8, "0000000044000002"),
    (0x100_000c, 8, "0000000044000002"),
    (0x100_0180, 4, "44000002"),
    (0x100_0398, 0x10, "0000000000000000"),
    (0x100_03a0, 4, "E01"),
    (0xe000_0000, 4, "E01"),
    (u64::MAX, 1, "E01"),
    (0, 0, "E01"),
];

#[test]
fn memory(rt: HostRuntime) -> Result<(), Fail> {
    let ram = Ram::new(rt.alloc(), RAM_BYTES)?;
    for (at, count, reply) in MEMORY {
        let mut text = Vec::new(rt.alloc());
        add_memory(&mut text, &ram, at, count)?;
        assert!(rt; text.as_slice() == reply.as_bytes(), "{at:x}");
    }
    Ok(())
}

#[test]
fn watchable(rt: HostRuntime) -> Result<(), Fail> {
    let ram = Ram::new(rt.alloc(), RAM_BYTES)?;
    assert!(rt; is_watchable(&ram, 0x1_6280, 4));
    assert!(rt; is_watchable(&ram, 0xff_f000, 4096));
    assert!(rt; !is_watchable(&ram, 0xff_fffe, 4));
    assert!(rt; !is_watchable(&ram, 0x1_6280, 0));
    assert!(rt; !is_watchable(&ram, 0x1_6280, 0x1001));
    assert!(rt; !is_watchable(&ram, u64::MAX, 1));
    Ok(())
}

// The world at the start, without devices.
fn opening(rt: &impl Abort, alloc: Global) -> World {
    match World::boot(alloc, Vec::new(alloc), Profile::One, BoardKind::One) {
        Ok(world) => world,
        Err(_) => panic!(rt; "out of memory"),
    }
}

#[test]
fn threads(rt: HostRuntime) -> Result<(), Fail> {
    let world = opening(&rt, rt.alloc());
    assert!(rt; is_told(&world, &None, 1));
    assert!(rt; !is_told(&world, &None, 0));
    assert!(rt; !is_told(&world, &None, 2));
    assert!(rt; !is_told(&world, &None, INTERRUPT_THREAD));
    assert!(rt; !is_told(&world, &None, u64::MAX));
    assert!(rt; thread_of(&Actor::Interrupt) == 0x10_0001);
    assert!(rt; named_thread(&world, &None, Some(7), 8, None) == 1);
    assert!(rt; named_thread(&world, &None, Some(7), 8, Some(9)) == 9);
    assert!(rt; are_loaded(&world.mods, &[]));
    assert!(rt; !are_loaded(&world.mods, &[2]));
    Ok(())
}

#[test]
fn ended(rt: HostRuntime) -> Result<(), Fail> {
    let world = opening(&rt, rt.alloc());
    let shell = last_of(&world, &Actor::Task(Ident::shell()));
    assert!(rt; shell.thread == 1 && shell.regs.pc == 4);
    assert!(rt; shell.name.bytes() == b"tShell".as_slice());
    assert!(rt; gone_in(&world, Some(shell)).is_none());
    let routine = last_of(&world, &Actor::Interrupt);
    let gone: Option<Ended> = gone_in(&world, Some(routine));
    assert!(rt; is_told(&world, &gone, INTERRUPT_THREAD));
    assert!(rt; named_thread(&world, &gone, Some(INTERRUPT_THREAD), 1, None) == INTERRUPT_THREAD);
    Ok(())
}
