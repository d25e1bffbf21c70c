//! The texts of recorded conversations.

use crate::lists::{
    add_library, add_memory_map, add_thread, begin_libraries, begin_threads, end_libraries,
    end_threads,
};
use crate::parts::add_part;
use crate::stop::{Cause, Signal, Stop, add_stop, add_supported};
use crate::target::{add_registers, add_target};
use std::test::Fail;
use wind_base::Regs;

// The description of the target, in pieces.
const TARGET: [&str; 28] = [
    "<?xml version=\"1.0\"?><!DOCTYPE target SYSTEM \"gdb-target.dtd\">",
    "<target version=\"1.0\"><architecture>powerpc:common</architecture><osabi>none</osabi>",
    "<feature name=\"org.gnu.gdb.power.core\"><reg name=\"r0\" bitsize=\"32\"/>",
    "<reg name=\"r1\" bitsize=\"32\"/><reg name=\"r2\" bitsize=\"32\"/>",
    "<reg name=\"r3\" bitsize=\"32\"/><reg name=\"r4\" bitsize=\"32\"/>",
    "<reg name=\"r5\" bitsize=\"32\"/><reg name=\"r6\" bitsize=\"32\"/>",
    "<reg name=\"r7\" bitsize=\"32\"/><reg name=\"r8\" bitsize=\"32\"/>",
    "<reg name=\"r9\" bitsize=\"32\"/><reg name=\"r10\" bitsize=\"32\"/>",
    "<reg name=\"r11\" bitsize=\"32\"/><reg name=\"r12\" bitsize=\"32\"/>",
    "<reg name=\"r13\" bitsize=\"32\"/><reg name=\"r14\" bitsize=\"32\"/>",
    "<reg name=\"r15\" bitsize=\"32\"/><reg name=\"r16\" bitsize=\"32\"/>",
    "<reg name=\"r17\" bitsize=\"32\"/><reg name=\"r18\" bitsize=\"32\"/>",
    "<reg name=\"r19\" bitsize=\"32\"/><reg name=\"r20\" bitsize=\"32\"/>",
    "<reg name=\"r21\" bitsize=\"32\"/><reg name=\"r22\" bitsize=\"32\"/>",
    "<reg name=\"r23\" bitsize=\"32\"/><reg name=\"r24\" bitsize=\"32\"/>",
    "<reg name=\"r25\" bitsize=\"32\"/><reg name=\"r26\" bitsize=\"32\"/>",
    "<reg name=\"r27\" bitsize=\"32\"/><reg name=\"r28\" bitsize=\"32\"/>",
    "<reg name=\"r29\" bitsize=\"32\"/><reg name=\"r30\" bitsize=\"32\"/>",
    "<reg name=\"r31\" bitsize=\"32\"/>",
    "<reg name=\"pc\" bitsize=\"32\" type=\"code_ptr\"/>",
    "<reg name=\"msr\" bitsize=\"32\"/><reg name=\"cr\" bitsize=\"32\"/>",
    "<reg name=\"lr\" bitsize=\"32\" type=\"code_ptr\"/>",
    "<reg name=\"ctr\" bitsize=\"32\"/><reg name=\"xer\" bitsize=\"32\"/></feature>",
    "<feature name=\"windplay.machine\">",
    "<reg name=\"step\" bitsize=\"64\" type=\"uint64\" group=\"windplay\"/>",
    "<reg name=\"time\" bitsize=\"64\" type=\"uint64\" group=\"windplay\"/>",
    "<reg name=\"tick\" bitsize=\"64\" type=\"uint64\" group=\"windplay\"/></feature>",
    "</target>",
];

// The registers of a task at a break point, in pieces.
const REGISTERS: [&str; 6] = [
    "0100000000018170000000000001625000000000000002620000000000000000",
    "0000000000000000000000000000000000000000000000000000000000000000",
    "0000000000000000000000000000000000000000000000000000000000000000",
    "0000000000000000000000000000000000000005000100000000000000000262",
    "00015e40xxxxxxxx8000000000015f0c00000000000000000000000000000083",
    "00000000000000810000000000000000",
];

// Whether a text is these pieces, one after another.
fn is_joined(text: &[u8], pieces: &[&str]) -> bool {
    let mut rest = text;
    for piece in pieces {
        match rest.strip_prefix(piece.as_bytes()) {
            Some(after) => rest = after,
            None => return false,
        }
    }
    rest.is_empty()
}

#[test]
fn target(rt: HostRuntime) -> Result<(), Fail> {
    let mut text = Vec::new(rt.alloc());
    add_target(&mut text)?;
    assert!(rt; is_joined(&text, &TARGET));
    Ok(())
}

#[test]
fn registers(rt: HostRuntime) -> Result<(), Fail> {
    let regs = Regs {
        gpr: [
            0x1000000, 0x18170, 0, 0x16250, 0, 0x262, 0, 0, 0, 0, 0, 0, 0, 0, 0, 0, 0, 0, 0, 0, 0,
            0, 0, 0, 0, 0, 0, 0, 5, 0x10000, 0, 0x262,
        ],
        pc: 0x00015e40,
        cr: 0x80000000,
        lr: 0x00015f0c,
        ctr: 0x00000000,
        xer: 0x00000000,
        reserve: None,
    };
    let mut text = Vec::new(rt.alloc());
    add_registers(
        &mut text,
        &regs,
        0x0000000000000083,
        0x0000000000000081,
        0x0000000000000000,
    )?;
    assert!(rt; is_joined(&text, &REGISTERS));
    Ok(())
}

#[test]
fn supported(rt: HostRuntime) -> Result<(), Fail> {
    let pieces = [
        "PacketSize=8000;ReverseStep+;ReverseContinue+;qXfer:features:read+;qXfer:threads:read+;",
        "qXfer:libraries:read+;qXfer:memory-map:read+;qXfer:exec-file:read+",
    ];
    let mut text = Vec::new(rt.alloc());
    add_supported(&mut text)?;
    assert!(rt; is_joined(&text, &pieces));
    Ok(())
}

#[test]
fn libraries(rt: HostRuntime) -> Result<(), Fail> {
    let pieces = [
        "<?xml version=\"1.0\"?><library-list version=\"1.0\"><library name=\"/2/demo.o\">",
        "<section address=\"0x15e30\"/><section address=\"0x0\"/></library></library-list>",
    ];
    let mut text = Vec::new(rt.alloc());
    begin_libraries(&mut text)?;
    add_library(&mut text, 2, b"demo.o", &[0x15e30, 0])?;
    end_libraries(&mut text)?;
    assert!(rt; is_joined(&text, &pieces));
    Ok(())
}

#[test]
fn threads(rt: HostRuntime) -> Result<(), Fail> {
    let pieces = [
        "<?xml version=\"1.0\"?><threads><thread id=\"1\" name=\"tShell\">",
        "ready, priority 1, phase Prompt</thread></threads>",
    ];
    let mut text = Vec::new(rt.alloc());
    begin_threads(&mut text)?;
    add_thread(&mut text, 1, b"tShell", b"ready, priority 1, phase Prompt")?;
    end_threads(&mut text)?;
    assert!(rt; is_joined(&text, &pieces));
    Ok(())
}

#[test]
fn memory_map(rt: HostRuntime) -> Result<(), Fail> {
    let pieces = [
        "<?xml version=\"1.0\"?><memory-map><memory type=\"rom\" start=\"0x0\" ",
        "length=\"0x40003a0\"/></memory-map>",
    ];
    let mut text = Vec::new(rt.alloc());
    add_memory_map(&mut text, 0x400_03a0)?;
    assert!(rt; is_joined(&text, &pieces));
    Ok(())
}

#[test]
fn stops(rt: HostRuntime) -> Result<(), Fail> {
    let stops = [
        (Cause::Step, 0x10_0001, "T05thread:100001;"),
        (Cause::Library, 1, "T05library:;thread:1;"),
        (Cause::Watch(0x16278), 5, "T05watch:16278;thread:5;"),
        (Cause::Exception(Signal::Segment), 5, "T0bthread:5;"),
        (Cause::Goal, 1, "T00thread:1;"),
        (Cause::End, 1, "T05replaylog:end;thread:1;"),
        (Cause::Beginning, 1, "T05replaylog:begin;thread:1;"),
    ];
    for (cause, thread, reply) in stops {
        let mut text = Vec::new(rt.alloc());
        add_stop(&mut text, Stop { cause, thread })?;
        assert!(rt; text.as_slice() == reply.as_bytes(), "{reply}");
    }
    Ok(())
}

#[test]
fn parts(rt: HostRuntime) -> Result<(), Fail> {
    let parts = [
        (0, 0, "m"),
        (0, 4, "m/win"),
        (4, 5, "ld.elf"),
        (4, 4, "md.el"),
        (9, 1, "l"),
        (u64::MAX, u64::MAX, "l"),
        (0, u64::MAX, "l/wind.elf"),
    ];
    for (at, count, reply) in parts {
        let mut text = Vec::new(rt.alloc());
        add_part(&mut text, b"/wind.elf", at, count)?;
        assert!(rt; text.as_slice() == reply.as_bytes(), "{reply}");
    }
    Ok(())
}
