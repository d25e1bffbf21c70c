//! All that a board holds, as a list of numbers, so that two moments can be compared.

use crate::board::Board;
use crate::opening::BLOCK;
use board_mem::Ram;
use mem_partition::Part;
use module_loader::{LoadedModule, Modules, Segment};
use std::alloc::{AllocError, Global};
use symbol_table::{Symbol, Symbols};
use wind_base::limits::MODULES;

/// How many bytes of RAM make one number.
const IN_NUMBER: u32 = 8;

/// The ids that are left, the symbols, the modules, the blocks, and the bytes of RAM.
pub fn picture(alloc: Global, board: &mut Board) -> Result<Vec<u64>, AllocError> {
    let mut list = Vec::new(alloc);
    list.push(u64::from(board.ids_left()))?;
    put_symbols(&mut list, board.symbols())?;
    put_modules(&mut list, board.modules())?;
    put_blocks(&mut list, board.part())?;
    put_ram(&mut list, board.ram())?;
    Ok(list)
}

// Adds the size of RAM, and its bytes: eight in a number, and those that remain at the end.
fn put_ram(list: &mut Vec<u64>, ram: &Ram) -> Result<(), AllocError> {
    let numbers = ram.size() / IN_NUMBER;
    list.push(u64::from(ram.size()))?;
    for n in 0..numbers {
        list.push(bytes_from(ram, n * IN_NUMBER))?;
    }
    for at in numbers * IN_NUMBER..ram.size() {
        list.push(ram.read8(at).map_or(0, u64::from))?;
    }
    Ok(())
}

// The eight bytes from an address on.
fn bytes_from(ram: &Ram, at: u32) -> u64 {
    let mut bytes = [0; IN_NUMBER as usize];
    let _ = ram.copy_out(at, &mut bytes);
    u64::from_be_bytes(bytes)
}

// Adds how many bytes there are, and the bytes.
fn put_bytes(list: &mut Vec<u64>, bytes: &[u8]) -> Result<(), AllocError> {
    list.push(bytes.len() as u64)?;
    for byte in bytes {
        list.push(u64::from(*byte))?;
    }
    Ok(())
}

fn put_symbols(list: &mut Vec<u64>, syms: &Symbols) -> Result<(), AllocError> {
    list.push(u64::from(syms.len()))?;
    for i in 0..syms.len() {
        if let Some(symbol) = syms.at(i) {
            put_symbol(list, symbol)?;
        }
    }
    Ok(())
}

fn put_symbol(list: &mut Vec<u64>, symbol: &Symbol) -> Result<(), AllocError> {
    put_bytes(list, symbol.name.bytes())?;
    list.push(u64::from(symbol.value))?;
    list.push(symbol.kind as u64)?;
    list.push(u64::from(symbol.global))?;
    list.push(u64::from(symbol.group))?;
    Ok(())
}

fn put_modules(list: &mut Vec<u64>, modules: &Modules) -> Result<(), AllocError> {
    let mut last = 0;
    for _ in 0..MODULES {
        let Some(id) = modules.next_after(last) else {
            break;
        };
        last = id.get();
        list.push(u64::from(last))?;
        if let Some(module) = modules.get(last) {
            put_module(list, module)?;
        }
    }
    list.push(0)?;
    Ok(())
}

fn put_module(list: &mut Vec<u64>, module: &LoadedModule) -> Result<(), AllocError> {
    put_bytes(list, module.name.bytes())?;
    let segments: &[Segment] = &module.segments;
    for segment in segments {
        list.push(u64::from(segment.addr))?;
        list.push(u64::from(segment.size))?;
    }
    Ok(())
}

// Adds the address and the size of each block; all blocks begin at multiples of 16.
fn put_blocks(list: &mut Vec<u64>, part: &Part) -> Result<(), AllocError> {
    for n in 0..part.end() / BLOCK {
        let at = n * BLOCK;
        if let Some(size) = part.size_of(at) {
            list.push(u64::from(at))?;
            list.push(u64::from(size))?;
        }
    }
    list.push(u64::from(part.free_total()))?;
    Ok(())
}
