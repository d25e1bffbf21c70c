//! Requests about files: the packets that begin with `vFile:`.

ghost use Rattle.std.specs.Prelude.{◌≡◌, IfOk};
ghost use Rattle.std.specs.Result.{result_ok};
ghost use Rattle.hex.specs.Hex.{decode_of};
ghost use Rattle.debug_packet.specs.declared.packet.FileRequest.TheVariants as files;
ghost use Rattle.debug_packet.specs.Packets.{file as file_lem, file_request as file_request_lem, open_file as open_file_lem, opened as opened_lem, read_file as read_file_lem, v_packet as v_packet_lem, with_file};

use crate::fields::{place_of, two_numbers};
use crate::letters::or_malformed;
use crate::packet::{FileRequest, Packet, Range};
use debug_wire::{decoded, hex_number};
use std::alloc::Global;
use wind_base::NoMemory;

// The packet of a name in hexadecimal digits.
fn opened(alloc: Global, digits: &[u8]) -> Result<Packet, NoMemory>
    ensures { IfOk result (λ packet. packet ≡ opened_lem (result_ok (decode_of digits.now))) }
{
    match decoded(alloc, digits)? {
        Some(name) => Ok(Packet::File(FileRequest::Open(name))),
        None => Ok(Packet::Malformed),
    }
}

// After `open:`.
fn open_file(alloc: Global, text: &[u8]) -> Result<Packet, NoMemory>
    ensures { IfOk result (λ packet. packet ≡ open_file_lem text.now) }
{
    let Some(comma) = place_of(b',', text) else {
        return Ok(Packet::Malformed);
    };
    if two_numbers(&text[comma + 1..]).is_none() {
        return Ok(Packet::Malformed);
    }
    opened(alloc, &text[..comma])
}

// After `pread:`.
#[tactic(auto, unfolding(crate::specs::Packets::read_file))]
fn read_file(text: &[u8]) -> Option<Packet>
    ensures { result ≡ read_file_lem text.now }
{
    let comma = place_of(b',', text)?;
    let file = hex_number(&text[..comma])?;
    let (count, at) = two_numbers(&text[comma + 1..])?;
    Some(Packet::File(FileRequest::Read(file, Range { at, count })))
}

// After `fstat:`.
#[tactic(auto, unfolding(crate::specs::Packets::with_file))]
fn status_of(text: &[u8]) -> Option<Packet>
    ensures { result ≡ with_file files.Status text.now }
{
    let file = hex_number(text)?;
    Some(Packet::File(FileRequest::Status(file)))
}

// After `close:`.
#[tactic(auto, unfolding(crate::specs::Packets::with_file))]
fn close_file(text: &[u8]) -> Option<Packet>
    ensures { result ≡ with_file files.Close text.now }
{
    let file = hex_number(text)?;
    Some(Packet::File(FileRequest::Close(file)))
}

// After `setfs:`.
#[tactic(auto, unfolding(crate::specs::Packets::with_file))]
fn set_root(text: &[u8]) -> Option<Packet>
    ensures { result ≡ with_file files.SetRoot text.now }
{
    let process = hex_number(text)?;
    Some(Packet::File(FileRequest::SetRoot(process)))
}

// A request by its name.
fn file_request(alloc: Global, name: &[u8], text: &[u8]) -> Result<Packet, NoMemory>
    ensures { IfOk result (λ packet. packet ≡ file_request_lem name.now text.now) }
{
    if name == b"open".as_slice() {
        return open_file(alloc, text);
    }
    if name == b"pread".as_slice() {
        return Ok(or_malformed(read_file(text)));
    }
    if name == b"fstat".as_slice() {
        return Ok(or_malformed(status_of(text)));
    }
    if name == b"close".as_slice() {
        return Ok(or_malformed(close_file(text)));
    }
    if name == b"setfs".as_slice() {
        return Ok(or_malformed(set_root(text)));
    }
    Ok(Packet::Unknown)
}

// After `vFile:`.
fn file(alloc: Global, text: &[u8]) -> Result<Packet, NoMemory>
    ensures { IfOk result (λ packet. packet ≡ file_lem text.now) }
{
    let Some(colon) = place_of(b':', text) else {
        return Ok(Packet::Unknown);
    };
    file_request(alloc, &text[..colon], &text[colon + 1..])
}

/// The packet of what comes after `v`.
pub(crate) fn v_packet(alloc: Global, text: &[u8]) -> Result<Packet, NoMemory>
    ensures { IfOk result (λ packet. packet ≡ v_packet_lem text.now) }
{
    if text.starts_with(b"File:".as_slice()) {
        return file(alloc, &text[5..]);
    }
    Ok(Packet::Unknown)
}
