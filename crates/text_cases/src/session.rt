//! The lines of a session.

use crate::reading::{bytes, shown};
use crate::words::{Word, words};
use board_mem::Ram;
use case_files::{Player, Trouble, name, number};
use std::alloc::Global;
use symbol_table::{SymKind, Symbol, Symbols};
use text_show::{printf_text, symbol_rows};
use wind_base::OutBuf;
use wind_base::limits::PRINTF_BYTES;

/// The size of RAM in bytes.
const SIZE: u32 = 0x1_0000;

/// The address of the format of a line.
const FORMAT: u32 = 0x1000;

/// The address of its strings, one after another, each followed by a zero byte.
const STRINGS: u32 = 0x3000;

/// The stack pointer, before a line sets it.
const STACK: u32 = 0x8000;

/// The symbols so far, and the stack pointer.
#[derive(Drop)]
pub struct Session {
    alloc: Global,
    symbols: Symbols,
    stack: u32,
}

impl Player for Session {
    fn new(alloc: Global) -> Result<Session, Trouble> {
        Ok(Session {
            alloc,
            symbols: Symbols::new(alloc)?,
            stack: STACK,
        })
    }

    /// Plays a line `COMMAND -> ANSWER`, or `COMMAND` if nothing is answered. Returns the answer if
    /// it differs.
    fn play(&mut self, line: &str) -> Result<Option<String>, Trouble> {
        let (command, wanted) = match line.split_once(" -> ") {
            Some((command, wanted)) => (command, wanted),
            None => (line, ""),
        };
        let answer = self.answer(&words(self.alloc, command)?)?;
        if answer.as_str() == wanted {
            Ok(None)
        } else {
            Ok(Some(answer))
        }
    }
}

impl Session {
    fn answer(&mut self, words: &[Word]) -> Result<String, Trouble> {
        match words {
            [Word::Plain("printf"), Word::Quoted(format), values @ ..] => {
                return self.printf(format, values);
            }
            [Word::Plain("lkup"), Word::Quoted(part)] => return self.look_up(part),
            [Word::Plain("stack"), Word::Plain(stack)] => self.stack = number(stack)?,
            [
                Word::Plain("symbol"),
                Word::Plain(label),
                Word::Plain(value),
                Word::Plain(kind),
            ] => {
                self.add(label, value, kind)?;
            }
            _ => return Err(Trouble::Unreadable),
        }
        Ok(String::new(self.alloc))
    }

    // `symbol NAME VALUE KIND`: adds a symbol after the others.
    fn add(&mut self, label: &str, value: &str, kind: &str) -> Result<(), Trouble> {
        let symbol = Symbol {
            name: name(self.alloc, label)?,
            value: number(value)?,
            kind: kind_of(kind)?,
            global: true,
            group: 0,
        };
        if symbol.name.bytes().is_empty() {
            return Err(Trouble::Unreadable);
        }
        if self.symbols.reserve(1).is_err() {
            return Err(Trouble::NoMemory);
        }
        self.symbols.add(symbol);
        Ok(())
    }

    // `lkup "PART"`: the rows of the symbols whose names contain the part.
    fn look_up(&self, part: &str) -> Result<String, Trouble> {
        let part = bytes(self.alloc, part)?;
        let mut out = OutBuf::reserved(self.alloc, 0)?;
        symbol_rows(self.alloc, &self.symbols, &part, &mut out)?;
        shown(self.alloc, out.bytes())
    }

    // `printf "FORMAT" VALUE..`: what is written, and the answer of the call if it isn't the number
    // of bytes; or `none`.
    fn printf(&self, format: &str, values: &[Word]) -> Result<String, Trouble> {
        let mut memory = Memory::new(self.alloc)?;
        let first = memory.laid(format, self.stack, values)?;
        written(self.alloc, &first, self.stack, &memory.ram)
    }
}

// What `printf` writes with these first seven values.
fn written(alloc: Global, first: &[u32; 7], stack: u32, ram: &Ram) -> Result<String, Trouble> {
    let mut out = OutBuf::reserved(alloc, PRINTF_BYTES)?;
    match printf_text(FORMAT, first, stack, ram, &mut out) {
        Some(count) => counted(alloc, out.bytes(), count),
        None => Ok("none".to_string(alloc)?),
    }
}

// The bytes that are written, and the answer of the call if it isn't their number.
fn counted(alloc: Global, bytes: &[u8], count: u32) -> Result<String, Trouble> {
    let mut text = shown(alloc, bytes)?;
    if count as usize != bytes.len() {
        write!(text, " {count}").or(Err(Trouble::NoMemory))?;
    }
    Ok(text)
}

// The symbol kind that a word names.
fn kind_of(word: &str) -> Result<SymKind, Trouble> {
    match word {
        "text" => Ok(SymKind::TextSym),
        "data" => Ok(SymKind::DataSym),
        "bss" => Ok(SymKind::BssSym),
        "abs" => Ok(SymKind::AbsSym),
        _ => Err(Trouble::Unreadable),
    }
}

// RAM that begins as zeros, and how far strings fill it.
#[derive(Drop)]
struct Memory {
    alloc: Global,
    ram: Ram,
    end: u32,
}

impl Memory {
    fn new(alloc: Global) -> Result<Memory, Trouble> {
        Ok(Memory {
            alloc,
            ram: Ram::new(alloc, SIZE)?,
            end: STRINGS,
        })
    }

    // Writes bytes at an address.
    fn put(&mut self, at: u32, piece: &[u8]) {
        let _ = self.ram.copy_in(at, piece);
    }

    // The value that a word means: a number in hexadecimal digits, or the address of a string.
    fn value(&mut self, word: Word) -> Result<u32, Trouble> {
        match word {
            Word::Plain(digits) => number(digits),
            Word::Quoted(text) => {
                let string = bytes(self.alloc, text)?;
                let length = u32::try_from(string.len()).or(Err(Trouble::Unreadable))?;
                let at = self.end;
                self.put(at, &string);
                self.end = at.wrapping_add(length).wrapping_add(1);
                Ok(at)
            }
        }
    }

    // Writes the format and the values, and returns the first seven values.
    fn laid(&mut self, format: &str, stack: u32, values: &[Word]) -> Result<[u32; 7], Trouble> {
        self.put(FORMAT, &bytes(self.alloc, format)?);
        self.take(stack, values)
    }

    // Returns the first seven values; the others go to the words from 8 bytes above the stack
    // pointer on.
    fn take(&mut self, stack: u32, values: &[Word]) -> Result<[u32; 7], Trouble> {
        let mut first = [0; 7];
        let mut place = 0;
        let mut at = stack.wrapping_add(8);
        for word in values {
            let value = self.value(*word)?;
            if place < 7 {
                first[place] = value;
                place += 1;
            } else {
                let _ = self.ram.write32(at, value);
                at = at.wrapping_add(4);
            }
        }
        Ok(first)
    }
}
