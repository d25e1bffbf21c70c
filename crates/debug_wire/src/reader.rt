//! The reader of an input.

ghost use Rattle.std.specs.Prelude.{◌≡◌, ◌+◌, ◌≤◌, ◌++◌, ◌∷◌, [], IfOk, OnOk, OnErr, length, take};
ghost use Rattle.debug_wire.specs.Frames.{after, completed, ended, frame_of as frame_of_lem, is_checksum as is_checksum_lem, kept, longest_body, moved, Between, InBody};
ghost use Rattle.debug_wire.specs.Keeping.{place_of};

use crate::bytes::Bytes;
use crate::frame::{Frame, checksum};
use crate::number::hex_number;
use std::alloc::Global;
use std::marker::Model;
use std::mem;
use wind_base::NoMemory;

/// The greatest length of a packet's body in bytes.
pub const LONGEST_BODY: usize = 0x8000;

// The part of a packet that comes next.
#[derive(Clone, Copy)]
pub(crate) enum Part {
    Start,
    Body,
    FirstDigit,
    // The second digit, after this first one.
    SecondDigit(u8),
}

/// Reads an input byte by byte.
#[derive(Drop)]
pub struct Reader {
    alloc: Global,
    part: Part,
    body: Vec<u8>,
}

impl Model for Reader {
    ghost use Rattle.std.specs.Prelude.{◌+◌, ◌≤◌, length};
    ghost use Rattle.debug_wire.specs.Frames.{Place, longest_body};
    ghost use Rattle.debug_wire.specs.Keeping.{place_of};

    ghost Value = { Place };

    ghost view = { λ r. place_of r.part r.body.items };

    ghost invariant = { λ r. length r.body.items ≤ longest_body + 1 };
}

impl Reader {
    /// A reader before its first byte.
    pub fn new(alloc: Global) -> Reader
        ensures { result ≡ Between }
    {
        Reader {
            alloc,
            part: Part::Start,
            body: Vec::new(alloc),
        }
    }

    /// Takes a byte, and returns the frame that it completes. If memory runs out, the reader is as
    /// if the byte hadn't come.
    pub fn byte(&mut self, byte: u8) -> Result<Option<Frame>, NoMemory>
        ensures found { IfOk result (λ frame. frame ≡ completed self.old byte) }
        ensures place { OnOk result (self.new ≡ kept (after self.old byte)) }
        ensures err { OnErr result (self.new ≡ self.old) }
    {
        let (part, frame) = advance(self.alloc, self.part, &mut self.body, byte)?;
        self.part = part;
        Ok(frame)
    }
}

// Takes a byte at this part of a packet, whose body so far is `body`. Returns the part that comes
// next, and the frame that the byte completes.
#[tactic(auto, using(crate::proofs::ReaderLemmas::body_cut))]
fn advance(
    alloc: Global,
    part: Part,
    body: &mut Vec<u8>,
    byte: u8,
) -> Result<(Part, Option<Frame>), NoMemory>
    requires { length body.old.items ≤ longest_body + 1 }
    ensures found { IfOk result (λ next. next.1 ≡ completed (place_of part body.old.items) byte) }
    ensures place { IfOk result (λ next. place_of next.0 body.new.items ≡ kept (after (place_of part body.old.items) byte)) }
    ensures short { length body.new.items ≤ longest_body + 1 }
    ensures err { OnErr result (body.new.items ≡ body.old.items) }
{
    if byte == b'$' {
        body.clear();
        return Ok((Part::Body, None));
    }
    match part {
        Part::Start => Ok((Part::Start, resend(byte))),
        Part::Body => {
            let next = add_to_body(body, byte)?;
            Ok((next, None))
        }
        Part::FirstDigit => Ok((Part::SecondDigit(byte), None)),
        Part::SecondDigit(high) => {
            let whole = mem::replace(body, Vec::new(alloc));
            Ok((Part::Start, Some(frame_of(whole, high, byte))))
        }
    }
}

// What a byte between packets completes.
fn resend(byte: u8) -> Option<Frame>
    ensures { result ≡ ended Between byte }
{
    if byte == b'-' {
        Some(Frame::Resend)
    } else {
        None
    }
}

// Adds a byte to a body. Of a body that is too long, one byte more than the longest has is enough.
#[tactic(auto, using(crate::proofs::ReaderLemmas::body_more, crate::proofs::ReaderLemmas::body_full))]
fn extend(body: &mut Vec<u8>, byte: u8) -> Result<(), NoMemory>
    requires { length body.old.items ≤ longest_body + 1 }
    ensures ok { OnOk result (body.new.items ≡ take (longest_body + 1) (body.old.items ++ byte ∷ [])) }
    ensures short { length body.new.items ≤ longest_body + 1 }
    ensures err { OnErr result (body.new.items ≡ body.old.items) }
{
    if body.len() > LONGEST_BODY {
        return Ok(());
    }
    if body.push(byte).is_err() {
        return Err(NoMemory);
    }
    Ok(())
}

// Takes a byte of a body, or the `#` after it. Returns the part that comes next.
#[tactic(auto, using(crate::proofs::ReaderLemmas::body_cut))]
fn add_to_body(body: &mut Vec<u8>, byte: u8) -> Result<Part, NoMemory>
    requires { length body.old.items ≤ longest_body + 1 }
    ensures ok { IfOk result (λ part. place_of part body.new.items ≡ kept (moved (InBody body.old.items) byte)) }
    ensures short { length body.new.items ≤ longest_body + 1 }
    ensures err { OnErr result (body.new.items ≡ body.old.items) }
{
    if byte == b'#' {
        return Ok(Part::FirstDigit);
    }
    extend(body, byte)?;
    Ok(Part::Body)
}

// Whether two bytes write the checksum of a body.
fn is_checksum(body: &[u8], high: u8, low: u8) -> bool
    ensures { result ≡ is_checksum_lem body.now high low }
{
    match hex_number(&[high, low]) {
        Some(number) => number == u64::from(checksum(body)),
        None => false,
    }
}

// The frame of a body with these two bytes for its checksum.
fn frame_of(body: Vec<u8>, high: u8, low: u8) -> Frame
    ensures { result ≡ frame_of_lem body.items high low }
{
    if body.len() <= LONGEST_BODY && is_checksum(&body, high, low) {
        Frame::Packet(Bytes::of(body))
    } else {
        Frame::Damaged
    }
}
