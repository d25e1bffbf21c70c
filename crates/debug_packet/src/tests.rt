//! The packets of recorded conversations, each with what its reply implies.

use crate::packet::{Command, FileRequest, Object, Packet, Point, Purpose, Range, Way};
use crate::reading::read_packet;
use debug_wire::ThreadId;
use std::test::Fail;

// The reply is empty.
const UNKNOWN: [&str; 24] = [
    "",
    "vMustReplyEmpty",
    "qTStatus",
    "qOffsets",
    "qSymbol::",
    "vCont?",
    "QStartNoAckMode",
    "vKill;a410",
    "!",
    "R00",
    "qC",
    "p20",
    "qXfer:nothing:read::0,10",
    "qXfer:threads:write::0:00",
    "qRcmd",
    "vFile:unlink:2f61",
    "vFile:readlink:2f61",
    "Z3,16280,4",
    "Z4,16280,4",
    "Z5,0,4",
    "z3,0,4",
    "vFoo",
    "bs1",
    "vFile:",
];

// The reply is E01, whatever the session is.
const MALFORMED: [&str; 24] = [
    "zebra",
    "qXfer:threads:read",
    "qXfer:threads:read::0",
    "Hgzz",
    "Hx0",
    "H",
    "T",
    "m15e30",
    "mzz,1",
    "m0,10000000000000000",
    "m",
    "m1,",
    "m,1",
    "qRcmd,zz",
    "qRcmd,616",
    "Z1,zz,4",
    "Z1,15e40",
    "Z1",
    "vFile:open:zz,0,0",
    "vFile:pread:3,1",
    "vFile:close:-1",
    "c100",
    "gx",
    "Szz",
];

// The reply is E01, since nothing can be written.
const WRITES: [&str; 5] = [
    "M15e30,4:00000000",
    "X15e30,0:",
    "X15e30,4:abcd",
    "P3=00000001",
    "G00",
];

const MEMORY: [(&str, u64, u64); 7] = [
    ("m15e30,10", 0x15e30, 16),
    ("mfffff0,20", 0xff_fff0, 32),
    ("m0,8000", 0, 0x8000),
    ("m0,0", 0, 0),
    ("m100000000,4", 0x1_0000_0000, 4),
    ("mffffffffffffffff,1", u64::MAX, 1),
    ("mA0,4", 160, 4),
];

const THREADS: [(&str, Purpose, ThreadId); 6] = [
    ("Hg0", Purpose::Registers, ThreadId::Any),
    ("Hg-1", Purpose::Registers, ThreadId::All),
    ("Hg5", Purpose::Registers, ThreadId::Id(5)),
    ("Hc0", Purpose::Steps, ThreadId::Any),
    ("Hc-1", Purpose::Steps, ThreadId::All),
    ("Hc100001", Purpose::Steps, ThreadId::Id(0x10_0001)),
];

const MOVES: [(&str, Way); 6] = [
    ("s", Way::Step),
    ("S05", Way::Step),
    ("c", Way::Continue),
    ("C0b", Way::Continue),
    ("bs", Way::StepBack),
    ("bc", Way::ContinueBack),
];

const TRANSFERS: [(&str, Object, u64, u64); 6] = [
    (
        "qXfer:features:read:target.xml:40,1000",
        Object::Features,
        0x40,
        0x1000,
    ),
    ("qXfer:threads:read::10,5", Object::Threads, 16, 5),
    ("qXfer:threads:read::0,0", Object::Threads, 0, 0),
    ("qXfer:libraries:read::0,1000", Object::Libraries, 0, 0x1000),
    (
        "qXfer:memory-map:read::0,1000",
        Object::MemoryMap,
        0,
        0x1000,
    ),
    ("qXfer:exec-file:read::0,1000", Object::ExecFile, 0, 0x1000),
];

// Each text is `step`, `goto 261` and so on, in hexadecimal digits.
const COMMANDS: [(&str, Command); 8] = [
    ("qRcmd,73746570", Command::Step),
    ("qRcmd,676f746f20323631", Command::GoTo(261)),
    (
        "qRcmd,676f746f2039393939393939393939393939",
        Command::GoTo(9_999_999_999_999),
    ),
    ("qRcmd,69", Command::Tasks),
    ("qRcmd,636f6e736f6c65", Command::Console),
    (
        "qRcmd,676f746f203132333435363738393031323334",
        Command::Help,
    ),
    ("qRcmd,68656c70", Command::Help),
    ("qRcmd,", Command::Help),
];

#[test]
fn unknown(rt: HostRuntime) -> Result<(), Fail> {
    for body in UNKNOWN {
        let packet = read_packet(rt.alloc(), body.as_bytes())?;
        assert!(rt; matches!(&packet, Packet::Unknown), "{body}");
    }
    Ok(())
}

#[test]
fn malformed(rt: HostRuntime) -> Result<(), Fail> {
    for body in MALFORMED {
        let packet = read_packet(rt.alloc(), body.as_bytes())?;
        assert!(rt; matches!(&packet, Packet::Malformed), "{body}");
    }
    Ok(())
}

#[test]
fn writes(rt: HostRuntime) -> Result<(), Fail> {
    for body in WRITES {
        let packet = read_packet(rt.alloc(), body.as_bytes())?;
        assert!(rt; matches!(&packet, Packet::Write), "{body}");
    }
    Ok(())
}

#[test]
fn memory(rt: HostRuntime) -> Result<(), Fail> {
    for (body, at, count) in MEMORY {
        let range = match read_packet(rt.alloc(), body.as_bytes())? {
            Packet::Memory(range) => Some(range),
            _ => None,
        };
        assert!(rt; range == Some(Range { at, count }), "{body}");
    }
    Ok(())
}

#[test]
fn threads(rt: HostRuntime) -> Result<(), Fail> {
    for (body, purpose, thread) in THREADS {
        let named = match read_packet(rt.alloc(), body.as_bytes())? {
            Packet::SetThread(purpose, thread) => Some((purpose, thread)),
            _ => None,
        };
        assert!(rt; named == Some((purpose, thread)), "{body}");
    }
    Ok(())
}

#[test]
fn alive(rt: HostRuntime) -> Result<(), Fail> {
    let thread = match read_packet(rt.alloc(), b"T100001")? {
        Packet::IsAlive(thread) => Some(thread),
        _ => None,
    };
    assert!(rt; thread == Some(ThreadId::Id(0x10_0001)));
    Ok(())
}

#[test]
fn moves(rt: HostRuntime) -> Result<(), Fail> {
    for (body, way) in MOVES {
        let moved = match read_packet(rt.alloc(), body.as_bytes())? {
            Packet::Move(way) => Some(way),
            _ => None,
        };
        assert!(rt; moved == Some(way), "{body}");
    }
    Ok(())
}

// The point that a packet sets or removes.
fn point_of(packet: Packet) -> Option<Point> {
    match packet {
        Packet::Insert(point) | Packet::Remove(point) => Some(point),
        _ => None,
    }
}

#[test]
fn points(rt: HostRuntime) -> Result<(), Fail> {
    let watched = Range {
        at: 0x16278,
        count: 12,
    };
    let points = [
        ("Z0,fffffffc,4", Point::Break(0xffff_fffc)),
        ("Z1,15e40,4", Point::Break(0x15e40)),
        ("z1,15e40,4", Point::Break(0x15e40)),
        ("Z2,16278,c", Point::Watch(watched)),
        ("z2,16278,c", Point::Watch(watched)),
    ];
    for (body, point) in points {
        let packet = read_packet(rt.alloc(), body.as_bytes())?;
        let is_set = matches!(&packet, Packet::Insert(_));
        assert!(rt; is_set == body.starts_with('Z'), "{body}");
        assert!(rt; point_of(packet) == Some(point), "{body}");
    }
    Ok(())
}

#[test]
fn transfers(rt: HostRuntime) -> Result<(), Fail> {
    for (body, object, at, count) in TRANSFERS {
        let part = match read_packet(rt.alloc(), body.as_bytes())? {
            Packet::Transfer(object, range) => Some((object, range)),
            _ => None,
        };
        assert!(rt; part == Some((object, Range { at, count })), "{body}");
    }
    Ok(())
}

#[test]
fn commands(rt: HostRuntime) -> Result<(), Fail> {
    for (body, command) in COMMANDS {
        let asked = match read_packet(rt.alloc(), body.as_bytes())? {
            Packet::Monitor(command) => Some(command),
            _ => None,
        };
        assert!(rt; asked == Some(command), "{body}");
    }
    Ok(())
}

#[test]
fn files(rt: HostRuntime) -> Result<(), Fail> {
    let alloc = rt.alloc();
    let name = match read_packet(alloc, b"vFile:open:2f77696e642e656c66,0,0")? {
        Packet::File(FileRequest::Open(name)) => Some(name),
        _ => None,
    };
    let name = name.ok_or("no name")?;
    assert!(rt; name.as_slice() == b"/wind.elf".as_slice());
    let part = match read_packet(alloc, b"vFile:pread:3,100,768")? {
        Packet::File(FileRequest::Read(file, range)) => Some((file, range)),
        _ => None,
    };
    let range = Range {
        at: 0x768,
        count: 0x100,
    };
    assert!(rt; part == Some((3, range)));
    let status = read_packet(alloc, b"vFile:fstat:3")?;
    assert!(rt; matches!(&status, Packet::File(FileRequest::Status(3))));
    let closed = read_packet(alloc, b"vFile:close:4")?;
    assert!(rt; matches!(&closed, Packet::File(FileRequest::Close(4))));
    let root = read_packet(alloc, b"vFile:setfs:0")?;
    assert!(rt; matches!(&root, Packet::File(FileRequest::SetRoot(0))));
    Ok(())
}

#[test]
fn others(rt: HostRuntime) -> Result<(), Fail> {
    let alloc = rt.alloc();
    let supported = read_packet(alloc, b"qSupported:multiprocess+;swbreak+")?;
    assert!(rt; matches!(&supported, Packet::Supported));
    let why = read_packet(alloc, b"?")?;
    assert!(rt; matches!(&why, Packet::WhyStopped));
    let registers = read_packet(alloc, b"g")?;
    assert!(rt; matches!(&registers, Packet::Registers));
    let attached = read_packet(alloc, b"qAttached")?;
    assert!(rt; matches!(&attached, Packet::Attached));
    let detach = read_packet(alloc, b"D")?;
    assert!(rt; matches!(&detach, Packet::Detach));
    let kill = read_packet(alloc, b"k")?;
    assert!(rt; matches!(&kill, Packet::Kill));
    Ok(())
}
