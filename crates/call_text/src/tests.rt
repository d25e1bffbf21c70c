//! Tests of the texts, with ample memory.

use crate::{CALL_TEXT_BYTES, REPLY_TEXT_BYTES, add_call, add_reply};
use kernel_world::{Call, Reply};
use std::test::Fail;
use wind_base::{Errno, OutBuf};

// The text of a call, followed by that of its reply.
fn text(rt: &HostRuntime, call: &Call, reply: &Reply) -> Result<OutBuf, Fail> {
    let room = CALL_TEXT_BYTES + REPLY_TEXT_BYTES;
    let mut out = OutBuf::reserved(rt.alloc(), room).or(Err("memory"))?;
    add_call(&mut out, call);
    add_reply(&mut out, call.gate(), reply);
    Ok(out)
}

#[test]
fn shows_signed_numbers_and_errors(rt: HostRuntime) -> Result<(), Fail> {
    let take = Call::SemTake {
        id: 2,
        timeout: 0xffff_ffff,
    };
    let refusal = Reply::Refusal(Errno::ObjTimeout);
    let out = text(&rt, &take, &refusal)?;
    assert_eq!(rt; out.bytes(), b"semTake(2, -1) = -1 OBJ_TIMEOUT".as_slice());
    let out = text(&rt, &take, &Reply::Answer(0))?;
    assert_eq!(rt; out.bytes(), b"semTake(2, -1) = 0".as_slice());
    let out = text(&rt, &take, &Reply::Later)?;
    assert_eq!(rt; out.bytes(), b"semTake(2, -1) waits".as_slice());
    let create = Call::SemBCreate {
        options: 3,
        state: 1,
    };
    let refusal = Reply::Refusal(Errno::InvalidOption);
    let out = text(&rt, &create, &refusal)?;
    assert_eq!(rt;
        out.bytes(),
        b"semBCreate(3, 1) = 0 INVALID_OPTION".as_slice()
    );
    Ok(())
}

#[test]
fn shows_addresses(rt: HostRuntime) -> Result<(), Fail> {
    let set = Call::ErrnoSet { number: 0x3d_0004 };
    let out = text(&rt, &set, &Reply::Answer(0))?;
    assert_eq!(rt; out.bytes(), b"errnoSet(0x3d0004) = 0".as_slice());
    let malloc = Call::Malloc { size: 100 };
    let out = text(&rt, &malloc, &Reply::Answer(0x1_5f40))?;
    assert_eq!(rt; out.bytes(), b"malloc(100) = 0x15f40".as_slice());
    let refusal = Reply::Refusal(Errno::NotEnoughMemory);
    let out = text(&rt, &malloc, &refusal)?;
    assert_eq!(rt;
        out.bytes(),
        b"malloc(100) = 0x0 NOT_ENOUGH_MEMORY".as_slice()
    );
    let delete = Call::TaskDelete { id: 0 };
    let out = text(&rt, &delete, &Reply::Gone)?;
    assert_eq!(rt; out.bytes(), b"taskDelete(0) ends its caller".as_slice());
    let delay = Call::TaskDelay { ticks: 20 };
    let out = text(&rt, &delay, &Reply::Later)?;
    assert_eq!(rt; out.bytes(), b"taskDelay(20) waits".as_slice());
    Ok(())
}

#[test]
fn shows_words_on_the_stack(rt: HostRuntime) -> Result<(), Fail> {
    let spawn = Call::TaskSpawn {
        name: 0x1_0000,
        priority: 100,
        options: 0,
        stack_size: 8192,
        entry: 0x1_2340,
        arguments: Some([1, 2, 3, 4, 5, 6, 7, 8, 9, 10]),
    };
    let expected = b"taskSpawn(0x10000, 100, 0, 8192, 0x12340, 1, 2, 3, 4, 5, 6, 7, 8, 9, 10) = 7";
    let out = text(&rt, &spawn, &Reply::Answer(7))?;
    assert_eq!(rt; out.bytes(), expected.as_slice());
    let sp = Call::Sp {
        entry: 0x1_2340,
        arguments: None,
    };
    let refusal = Reply::Refusal(Errno::BadAddress);
    let out = text(&rt, &sp, &refusal)?;
    assert_eq!(rt; out.bytes(), b"sp(0x12340, ?) = -1 BAD_ADDRESS".as_slice());
    let printf = Call::Printf {
        format: 0x1_0010,
        values: [7, 0xffff_fffe, 0, 0, 0, 0, 0],
        stack: 0x2_0000,
    };
    let expected = b"printf(0x10010, 7, -2, 0, 0, 0, 0, 0, ..) = 5";
    let out = text(&rt, &printf, &Reply::Answer(5))?;
    assert_eq!(rt; out.bytes(), expected.as_slice());
    let out = text(&rt, &Call::TaskLock, &Reply::Answer(0))?;
    assert_eq!(rt; out.bytes(), b"taskLock() = 0".as_slice());
    Ok(())
}
