//! Packets of one letter.

ghost use Rattle.std.specs.Prelude.{◌≡◌};
ghost use Rattle.debug_packet.specs.Packets.{alone as alone_lem, back as back_lem, insert as insert_lem, is_alive as is_alive_lem, letter_packet as letter_packet_lem, memory as memory_lem, or_malformed as or_malformed_lem, point as point_lem, point_of as point_of_lem, purpose_of as purpose_of_lem, remove as remove_lem, set_thread as set_thread_lem, with_signal as with_signal_lem};

use crate::fields::{place_of, range_of};
use crate::packet::{Packet, Point, Purpose, Range, Way};
use debug_wire::{hex_number, thread_id};

/// A packet whose form gave none is malformed.
pub(crate) fn or_malformed(asked: Option<Packet>) -> Packet
    ensures { result ≡ or_malformed_lem asked }
{
    asked.unwrap_or(Packet::Malformed)
}

// A packet after whose letter nothing comes.
fn alone(packet: Packet, rest: &[u8]) -> Packet
    ensures { result ≡ alone_lem packet rest.now }
{
    if rest.is_empty() {
        packet
    } else {
        Packet::Malformed
    }
}

#[tactic(auto, unfolding(crate::specs::Packets::memory))]
fn memory(rest: &[u8]) -> Option<Packet>
    ensures { result ≡ memory_lem rest.now }
{
    let range = range_of(rest)?;
    Some(Packet::Memory(range))
}

fn purpose_of(letter: u8) -> Option<Purpose>
    ensures { result ≡ purpose_of_lem letter }
{
    match letter {
        b'g' => Some(Purpose::Registers),
        b'c' => Some(Purpose::Steps),
        _ => None,
    }
}

#[tactic(auto, unfolding(crate::specs::Packets::set_thread))]
fn set_thread(rest: &[u8]) -> Option<Packet>
    ensures { result ≡ set_thread_lem rest.now }
{
    let [letter, text @ ..] = rest else {
        return None;
    };
    let purpose = purpose_of(*letter)?;
    let thread = thread_id(text)?;
    Some(Packet::SetThread(purpose, thread))
}

#[tactic(auto, unfolding(crate::specs::Packets::is_alive))]
fn is_alive(rest: &[u8]) -> Option<Packet>
    ensures { result ≡ is_alive_lem rest.now }
{
    let thread = thread_id(rest)?;
    Some(Packet::IsAlive(thread))
}

#[tactic(auto, unfolding(crate::specs::Packets::with_signal))]
fn with_signal(way: Way, rest: &[u8]) -> Option<Packet>
    ensures { result ≡ with_signal_lem way rest.now }
{
    let _signal = hex_number(rest)?;
    Some(Packet::Move(way))
}

fn back(rest: &[u8]) -> Packet
    ensures { result ≡ back_lem rest.now }
{
    if rest == b"s".as_slice() {
        return Packet::Move(Way::StepBack);
    }
    if rest == b"c".as_slice() {
        return Packet::Move(Way::ContinueBack);
    }
    Packet::Unknown
}

// The point of a type, or None if the type isn't known.
fn point_of(kind: u64, range: Range) -> Option<Point>
    ensures { result ≡ point_of_lem kind range }
{
    match kind {
        0 | 1 => Some(Point::Break(range.at)),
        2 => Some(Point::Watch(range)),
        _ => None,
    }
}

#[tactic(auto, unfolding(crate::specs::Packets::point))]
fn point(rest: &[u8]) -> Option<Option<Point>>
    ensures { result ≡ point_lem rest.now }
{
    let comma = place_of(b',', rest)?;
    let kind = hex_number(&rest[..comma])?;
    let range = range_of(&rest[comma + 1..])?;
    Some(point_of(kind, range))
}

#[tactic(auto, unfolding(crate::specs::Packets::insert))]
fn insert(rest: &[u8]) -> Option<Packet>
    ensures { result ≡ insert_lem rest.now }
{
    match point(rest)? {
        Some(point) => Some(Packet::Insert(point)),
        None => Some(Packet::Unknown),
    }
}

#[tactic(auto, unfolding(crate::specs::Packets::remove))]
fn remove(rest: &[u8]) -> Option<Packet>
    ensures { result ≡ remove_lem rest.now }
{
    match point(rest)? {
        Some(point) => Some(Packet::Remove(point)),
        None => Some(Packet::Unknown),
    }
}

/// The packet of a letter other than `q` and `v`, with what comes after it.
pub(crate) fn letter_packet(letter: u8, rest: &[u8]) -> Packet
    ensures { result ≡ letter_packet_lem letter rest.now }
{
    match letter {
        b'?' => alone(Packet::WhyStopped, rest),
        b'g' => alone(Packet::Registers, rest),
        b'm' => or_malformed(memory(rest)),
        b'M' | b'X' | b'G' | b'P' => Packet::Write,
        b'H' => or_malformed(set_thread(rest)),
        b'T' => or_malformed(is_alive(rest)),
        b's' => alone(Packet::Move(Way::Step), rest),
        b'c' => alone(Packet::Move(Way::Continue), rest),
        b'S' => or_malformed(with_signal(Way::Step, rest)),
        b'C' => or_malformed(with_signal(Way::Continue, rest)),
        b'b' => back(rest),
        b'Z' => or_malformed(insert(rest)),
        b'z' => or_malformed(remove(rest)),
        b'D' => alone(Packet::Detach, rest),
        b'k' => alone(Packet::Kill, rest),
        _ => Packet::Unknown,
    }
}
