//! Recorded inputs, some with noise or damaged packets.

use crate::frame::{Frame, add_framed};
use crate::number::{ThreadId, hex_number, thread_id};
use crate::reader::{LONGEST_BODY, Reader};
use crate::text::add_escaped;
use std::test::Fail;

// Each input, with what is sent at once for its frames, where `r` stands for the last reply.
const INPUTS: [(&str, &str); 15] = [
    ("++$?#3f+xyz$qAttached#8f+", "++"),
    ("$?#00$?#3f", "-+"),
    ("$?#zz$?#3f", "-+"),
    ("$?#3F", "+"),
    ("$qAttached#8f--+", "+rr"),
    ("-$?#3f", "r+"),
    ("$s#73$s#73-", "++r"),
    ("$qAtt$?#3f", "+"),
    ("\x03$?#3f\x03", "+"),
    ("$?#3f$qAtta", "+"),
    ("$?#3f$qAttached#8", "+"),
    ("$#00$zebra#14$vFoo#9a", "+++"),
    ("", ""),
    ("$?#$?#3f", "+"),
    ("$?#3$?#3f", "+"),
];

#[test]
fn inputs(rt: HostRuntime) -> Result<(), Fail> {
    for (input, answers) in INPUTS {
        let mut reader = Reader::new(rt.alloc());
        let mut text = Vec::new(rt.alloc());
        for byte in input.as_bytes() {
            if let Some(frame) = reader.byte(*byte)? {
                match &frame {
                    Frame::Resend => text.extend_from_slice(b"r")?,
                    _ => text.extend_from_slice(frame.acknowledgement())?,
                }
            }
        }
        assert!(rt; text.as_slice() == answers.as_bytes(), "{input}");
    }
    Ok(())
}

// The length of the body that a reader finds in a frame. None if the packet is damaged.
fn body_len(alloc: std::alloc::Global, frame: &[u8]) -> Result<Option<usize>, Fail> {
    let mut reader = Reader::new(alloc);
    let mut found = None;
    for byte in frame {
        if let Some(Frame::Packet(body)) = reader.byte(*byte)? {
            found = Some(body.as_slice().len());
        }
    }
    Ok(found)
}

#[test]
fn longest(rt: HostRuntime) -> Result<(), Fail> {
    let alloc = rt.alloc();
    let body = vec![in alloc; b'?'; LONGEST_BODY]?;
    let mut frame = Vec::new(alloc);
    add_framed(&mut frame, &body)?;
    assert!(rt; body_len(alloc, &frame)? == Some(LONGEST_BODY));
    let body = vec![in alloc; b'?'; LONGEST_BODY + 1]?;
    frame.clear();
    add_framed(&mut frame, &body)?;
    assert!(rt; body_len(alloc, &frame)?.is_none());
    Ok(())
}

#[test]
fn numbers(rt: HostRuntime) -> Result<(), Fail> {
    assert!(rt; hex_number(b"ffffffffffffffff") == Some(u64::MAX));
    assert!(rt; hex_number(b"10000000000000000").is_none());
    assert!(rt; hex_number(b"0000000000000000001A") == Some(26));
    assert!(rt; hex_number(b"").is_none());
    assert!(rt; hex_number(b"-1").is_none());
    assert!(rt; thread_id(b"-1") == Some(ThreadId::All));
    assert!(rt; thread_id(b"0") == Some(ThreadId::Any));
    assert!(rt; thread_id(b"100001") == Some(ThreadId::Id(0x10_0001)));
    assert!(rt; thread_id(b"-2").is_none());
    Ok(())
}

#[test]
fn binary_data(rt: HostRuntime) -> Result<(), Fail> {
    let mut text = Vec::new(rt.alloc());
    add_escaped(&mut text, b"a#b$c}d*e")?;
    assert!(rt; text.as_slice() == b"a}\x03b}\x04c}]d}\ne".as_slice());
    Ok(())
}
