//! Dumps of memory.

ghost use Rattle.std.specs.Prelude.{◌≡◌, ◌+◌, ◌*◌, ◌++◌, ◌<◌, ◌≤◌, map, length, IsTrue, IfOk, OnOk, OnErr};
ghost use Rattle.board_mem.specs.Memory.{has, bytes_at};
ghost use Rattle.text_show.specs.Columns.{with_text};
ghost use Rattle.text_show.specs.Dump.{unit_byte, units_text, shown_byte as shown_byte_lem, dump_line, dump_lines, lines_of as lines_of_lem, dump_of};

use crate::numeral::hex_digits;
use crate::page::{add, write};
use board_mem::Ram;
use std::alloc::Global;
use wind_base::{NoMemory, OutBuf};

// Adds a byte of a line at its place in the line.
fn add_byte(page: &mut Vec<u8>, width: u32, place: u32, byte: u8) -> Result<(), NoMemory>
    requires { 0 < width }
    ensures { OnOk result (page.new.items ≡ page.old.items ++ unit_byte width place byte) }
{
    if place % width == 0 {
        add(page, b" ")?;
    }
    add(page, hex_digits(2, byte as u32).as_slice())
}

// Adds the units of a line.
fn add_units(page: &mut Vec<u8>, width: u32, bytes: &[u8]) -> Result<(), NoMemory>
    requires some { 0 < width }
    requires short { length bytes.now ≤ 16 }
    ensures { OnOk result (page.new.items ≡ page.old.items ++ units_text width 0 bytes.now) }
{
    let mut place = 0;
    for byte in bytes {
        add_byte(page, width, place, *byte)?;
        place += 1;
    }
    Ok(())
}

// The byte itself if it is printable ASCII, or a point.
fn shown_byte(byte: u8) -> u8
    ensures { result ≡ shown_byte_lem byte }
{
    if 32 <= byte && byte <= 126 {
        byte
    } else {
        b'.'
    }
}

// Adds the bytes of a line as characters.
fn add_shown(page: &mut Vec<u8>, bytes: &[u8]) -> Result<(), NoMemory>
    ensures { OnOk result (page.new.items ≡ page.old.items ++ map shown_byte_lem bytes.now) }
{
    for byte in bytes {
        add(page, &[shown_byte(*byte)])?;
    }
    Ok(())
}

// Adds a line.
fn add_line(page: &mut Vec<u8>, width: u32, at: u32, bytes: &[u8]) -> Result<(), NoMemory>
    requires some { 0 < width }
    requires short { length bytes.now ≤ 16 }
    ensures { OnOk result (page.new.items ≡ page.old.items ++ dump_line width at bytes.now) }
{
    add(page, hex_digits(8, at).as_slice())?;
    add(page, b":")?;
    add_units(page, width, bytes)?;
    add(page, b"  *")?;
    add_shown(page, bytes)?;
    add(page, b"*\n")?;
    Ok(())
}

// Adds the line of the `count` bytes from an address on.
fn add_line_at(
    page: &mut Vec<u8>,
    width: u32,
    ram: &Ram,
    at: u32,
    count: usize,
) -> Result<(), NoMemory>
    requires some { 0 < width }
    requires short { count ≤ 16 }
    requires ram { IsTrue (has ram.now.bytes at count) }
    ensures { OnOk result (page.new.items ≡ page.old.items ++ dump_line width at (bytes_at ram.now.bytes at count)) }
{
    let mut line = [0; 16];
    let line = &mut line[..count];
    let Ok(()) = ram.copy_out(at, line) else {
        unreachable!()
    };
    add_line(page, width, at, line)
}

// Adds all lines of the `n` bytes from an address on.
fn add_lines(page: &mut Vec<u8>, width: u32, ram: &Ram, at: u32, n: u32) -> Result<(), NoMemory>
    requires some { 0 < width }
    requires ram { IsTrue (has ram.now.bytes at n) }
    ensures { OnOk result (page.new.items ≡ page.old.items
        ++ dump_lines width (lines_of_lem (bytes_at ram.now.bytes at n)) at (bytes_at ram.now.bytes at n)) }
{
    let _size = ram.size();
    for number in 0..n.div_ceil(16) {
        let place = number * 16;
        add_line_at(page, width, ram, at + place, (n - place).min(16) as usize)?;
    }
    Ok(())
}

// Makes the dump.
#[tactic(auto, unfolding(crate::specs::Dump::dump_of))]
fn dump_page(alloc: Global, ram: &Ram, addr: u32, n: u32, width: u32) -> Result<Vec<u8>, NoMemory>
    requires some { 0 < width }
    requires wide { width ≤ 4 }
    requires ram { IsTrue (has ram.now.bytes addr (n * width)) }
    ensures { IfOk result (λ p. p.items ≡ dump_of ram.now.bytes addr n width) }
{
    let _size = ram.size();
    let mut page = Vec::new(alloc);
    add_lines(&mut page, width, ram, addr, n * width)?;
    Ok(page)
}

/// Writes the dump of `n` units of `width` bytes each, from an address on, as the shell's `d` shows
/// it: a line for each 16 bytes, of which the last may be shorter. The free room of `out` stays the
/// same.
///
/// # Errors
///
/// If host memory runs out, nothing is written.
pub fn dump(
    alloc: Global,
    ram: &Ram,
    addr: u32,
    n: u32,
    width: u32,
    out: &mut OutBuf,
) -> Result<(), NoMemory>
    requires some { 0 < width }
    requires wide { width ≤ 4 }
    requires ram { IsTrue (has ram.now.bytes addr (n * width)) }
    ensures ok { OnOk result (out.new ≡ with_text out.old (dump_of ram.now.bytes addr n width)) }
    ensures err { OnErr result (out.new ≡ out.old) }
{
    let page = dump_page(alloc, ram, addr, n, width)?;
    write(out, &page)
}
