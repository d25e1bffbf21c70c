//! Queries: the packets that begin with `q`.

ghost use Rattle.std.specs.Prelude.{◌≡◌, IfOk};
ghost use Rattle.debug_packet.specs.Packets.{command_of as command_of_lem, monitor as monitor_lem, numbered as numbered_lem, object_of as object_of_lem, operation as operation_lem, part_of as part_of_lem, query as query_lem, transfer as transfer_lem, with_number};
ghost use Rattle.debug_packet.specs.declared.packet.Command.TheVariants as commands;
ghost use Rattle.std.specs.Result.{result_ok};
ghost use Rattle.hex.specs.Hex.{decode_of};

use crate::fields::{place_of, range_of};
use crate::letters::or_malformed;
use crate::packet::{Command, Object, Packet};
use debug_wire::decoded;
use std::alloc::Global;
use wind_base::{NoMemory, decimal};

// The greatest number that a command can have: 13 digits.
const GREATEST_ARGUMENT: u64 = 9_999_999_999_999;

fn object_of(name: &[u8]) -> Option<Object>
    ensures { result ≡ object_of_lem name.now }
{
    if name == b"features".as_slice() {
        return Some(Object::Features);
    }
    if name == b"threads".as_slice() {
        return Some(Object::Threads);
    }
    if name == b"libraries".as_slice() {
        return Some(Object::Libraries);
    }
    if name == b"memory-map".as_slice() {
        return Some(Object::MemoryMap);
    }
    if name == b"exec-file".as_slice() {
        return Some(Object::ExecFile);
    }
    None
}

// After the operation `read`: the annex, which isn't used, and the part of the object.
#[tactic(auto, unfolding(crate::specs::Packets::part_of))]
fn part_of(object: Object, text: &[u8]) -> Option<Packet>
    ensures { result ≡ part_of_lem object text.now }
{
    let colon = place_of(b':', text)?;
    let range = range_of(&text[colon + 1..])?;
    Some(Packet::Transfer(object, range))
}

// After the object: the operation and its arguments.
#[tactic(auto, unfolding(crate::specs::Packets::operation))]
fn operation(object: Object, text: &[u8]) -> Option<Packet>
    ensures { result ≡ operation_lem object text.now }
{
    let colon = place_of(b':', text)?;
    if &text[..colon] == b"read".as_slice() {
        part_of(object, &text[colon + 1..])
    } else {
        Some(Packet::Unknown)
    }
}

// After `qXfer:`.
#[tactic(auto, unfolding(crate::specs::Packets::transfer))]
fn transfer(text: &[u8]) -> Option<Packet>
    ensures { result ≡ transfer_lem text.now }
{
    let colon = place_of(b':', text)?;
    match object_of(&text[..colon]) {
        Some(object) => operation(object, &text[colon + 1..]),
        None => Some(Packet::Unknown),
    }
}

// `goto N`, with this text for the number.
fn go_to(text: &[u8]) -> Command
    ensures { result ≡ with_number commands.GoTo text.now }
{
    match decimal(text, GREATEST_ARGUMENT) {
        Some(step) => Command::GoTo(step),
        None => Command::Help,
    }
}

// `events N`, with this text for the number.
fn events(text: &[u8]) -> Command
    ensures { result ≡ with_number commands.Events text.now }
{
    match decimal(text, GREATEST_ARGUMENT) {
        Some(count) => Command::Events(count),
        None => Command::Help,
    }
}

// A command with a number.
fn numbered(text: &[u8]) -> Command
    ensures { result ≡ numbered_lem text.now }
{
    if text.starts_with(b"goto ".as_slice()) {
        return go_to(&text[5..]);
    }
    if text.starts_with(b"events ".as_slice()) {
        return events(&text[7..]);
    }
    Command::Help
}

// The command of a text.
fn command_of(text: &[u8]) -> Command
    ensures { result ≡ command_of_lem text.now }
{
    if text == b"step".as_slice() {
        return Command::Step;
    }
    if text == b"i".as_slice() {
        return Command::Tasks;
    }
    if text == b"console".as_slice() {
        return Command::Console;
    }
    numbered(text)
}

// After `qRcmd,`.
fn monitor(alloc: Global, digits: &[u8]) -> Result<Packet, NoMemory>
    ensures { IfOk result (λ packet. packet ≡ monitor_lem (result_ok (decode_of digits.now))) }
{
    match decoded(alloc, digits)? {
        Some(text) => Ok(Packet::Monitor(command_of(text.as_slice()))),
        None => Ok(Packet::Malformed),
    }
}

/// The packet of what comes after `q`.
pub(crate) fn query(alloc: Global, text: &[u8]) -> Result<Packet, NoMemory>
    ensures { IfOk result (λ packet. packet ≡ query_lem text.now) }
{
    if text.starts_with(b"Rcmd,".as_slice()) {
        return monitor(alloc, &text[5..]);
    }
    if text.starts_with(b"Supported".as_slice()) {
        return Ok(Packet::Supported);
    }
    if text.starts_with(b"Xfer:".as_slice()) {
        return Ok(or_malformed(transfer(&text[5..])));
    }
    if text == b"Attached".as_slice() {
        return Ok(Packet::Attached);
    }
    Ok(Packet::Unknown)
}
