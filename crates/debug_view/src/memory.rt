//! The memory that is told: RAM, and after it the gates.

ghost use Rattle.std.specs.Prelude.{◌≡◌, ◌++◌, drop, take, IfOk, OnOk};
ghost use Rattle.debug_view.specs.Memory.{bytes_told as bytes_told_lem, gate_codes, gate_count, hex_or_refused, is_watchable as is_watchable_lem, memory_reply};

use board_mem::Ram;
use debug_texts::add_refused;
use debug_wire::{add, add_bytes};
use std::alloc::Global;
use wind_base::{NoMemory, bytes_after, first_bytes};

// The bytes of a gate: the instructions `sc` and `blr`, and two words 0. gdb looks at the word at
// the program counter before each step.
const GATE_CODE: [u8; 16] = [0x44, 0, 0, 2, 0x4e, 0x80, 0, 0x20, 0, 0, 0, 0, 0, 0, 0, 0];

// How many gates there are.
const GATES: u64 = 58;

// The most bytes of a watched range.
const MOST_WATCHED: u64 = 4096;

/// The bytes of RAM from an address on: `count` of them, or as many as there are.
pub fn ram_bytes(alloc: Global, ram: &Ram, at: u64, count: u64) -> Result<Vec<u8>, NoMemory>
    ensures { IfOk result (λ bytes. bytes.items ≡ take count (drop at ram.now.bytes)) }
{
    let size = u64::from(ram.size());
    if at >= size {
        return Ok(Vec::new(alloc));
    }
    let mut bytes = vec![in alloc; 0; count.min(size - at) as usize]?;
    let _ = ram.copy_out(at as u32, &mut bytes);
    Ok(bytes)
}

// Adds the bytes of so many gates.
fn add_gates(bytes: &mut Vec<u8>, count: u64) -> Result<(), NoMemory>
    ensures { OnOk result (bytes.new.items ≡ bytes.old.items ++ gate_codes count) }
{
    if count == 0 {
        return Ok(());
    }
    add_gates(bytes, count - 1)?;
    add(bytes, &GATE_CODE)
}

// Adds the bytes of the gates from an offset on: `count` of them, or as many as there are.
fn add_gate_bytes(bytes: &mut Vec<u8>, at: u64, count: u64) -> Result<(), NoMemory>
    ensures { OnOk result (bytes.new.items
        ≡ bytes.old.items ++ take count (drop at (gate_codes gate_count))) }
{
    let mut gates = Vec::new(*bytes.allocator());
    add_gates(&mut gates, GATES)?;
    if at > gates.len() as u64 {
        return Ok(());
    }
    add(
        bytes,
        first_bytes(bytes_after(&gates, at as usize), count as usize),
    )
}

// The bytes of the memory from an address on: `count` of them, or as many as there are.
#[tactic(auto, unfolding(crate::specs::Memory::memory_of), using(crate::proofs::Bytes::in_two))]
fn bytes_told(alloc: Global, ram: &Ram, at: u64, count: u64) -> Result<Vec<u8>, NoMemory>
    ensures { IfOk result (λ bytes. bytes.items ≡ bytes_told_lem ram.now.bytes at count) }
{
    let size = u64::from(ram.size());
    let in_ram = size.saturating_sub(at);
    let mut bytes = ram_bytes(alloc, ram, at, count)?;
    add_gate_bytes(
        &mut bytes,
        at.saturating_sub(size),
        count.saturating_sub(in_ram),
    )?;
    Ok(bytes)
}

// Adds bytes in hexadecimal digits, or an error if there is none.
fn add_hex_or_refused(text: &mut Vec<u8>, bytes: &[u8]) -> Result<(), NoMemory>
    ensures { OnOk result (text.new.items ≡ text.old.items ++ hex_or_refused bytes.now) }
{
    if bytes.is_empty() {
        return add_refused(text);
    }
    add_bytes(text, bytes)
}

/// Adds the reply with the bytes of the memory from an address on: `count` of them, or as many as
/// there are up to the end of the gates. If there is none, the reply is an error.
pub fn add_memory(text: &mut Vec<u8>, ram: &Ram, at: u64, count: u64) -> Result<(), NoMemory>
    ensures { OnOk result (text.new.items ≡ text.old.items ++ memory_reply ram.now.bytes at count) }
{
    let bytes = bytes_told(*text.allocator(), ram, at, count)?;
    add_hex_or_refused(text, &bytes)
}

/// Whether a range of addresses can be watched: it is in RAM, and has 1 to 4,096 bytes.
pub fn is_watchable(ram: &Ram, at: u64, count: u64) -> bool
    ensures { result ≡ is_watchable_lem ram.now.bytes at count }
{
    let end = u128::from(at) + u128::from(count);
    count > 0 && count <= MOST_WATCHED && end <= u128::from(ram.size())
}
