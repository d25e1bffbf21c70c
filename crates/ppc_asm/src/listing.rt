//! The instructions of a module as text.

ghost use Rattle.std.specs.Prelude.{◌≡◌, ◌<◌, ◌≤◌, ◌+◌, ◌^◌, [], ◌∷◌, length, slice_index};
ghost use Rattle.std.specs.Int.{from_be_bytes, w32};
ghost use Rattle.std.specs.List.{flat_map};
ghost use Rattle.elf_read.specs.Contents.{module_at, sects_at};
ghost use Rattle.wind_base.specs.OutBuf.{Added, KeepsSpace};
ghost use Rattle.ppc_word.specs.Rows.{row_of};
ghost use Rattle.wind_base.specs.Texts.{hex_places};
ghost use Rattle.ppc_asm.specs.Listing.{item_text, line_text, lines_from, section_lines, is_listed_at, listing};
ghost use Rattle.program_main.specs.Messages.{PutsText};

use elf_read::standard::SHT_NOBITS;
use elf_read::{content, header, header_count, is_loaded};
use ppc_text::show;
use ppc_word::decode;
use wind_base::text::{add, glyph};
use wind_base::{OutBuf, bytes_after};
use wind_outside::{Put, Sink};

/// SHF_EXECINSTR.
const EXECUTABLE: u32 = 4;

/// The most bytes of a line: two numbers of 8 digits, a blank after each, an instruction of 64, and the line feed.
pub(crate) const LINE_ROOM: u32 = 83;

// Adds the lowest `places` hexadecimal digits of a number.
fn put_hex(line: &mut OutBuf, places: u32, number: u64)
    requires { places ≤ line.old.room }
    ensures { Added places line.old line.new (hex_places places number) }
{
    if places > 0 {
        put_hex(line, places - 1, number / 16);
        add(line, &[glyph(false, (number % 16) as u32)]);
    }
}

#[tactic(auto, using(crate::proofs::Listed::shown_as))]
fn put_item(line: &mut OutBuf, word: u32)
    requires { 64 ≤ line.old.room }
    ensures { Added 64 line.old line.new (item_text (row_of word) word) }
{
    match decode(word) {
        Some(insn) => show(&insn, line),
        None => {
            add(line, b".long 0x");
            put_hex(line, 8, u64::from(word));
        }
    }
}

#[tactic(auto, unfolding(crate::specs::Listing::line_text))]
fn put_line(line: &mut OutBuf, offset: u64, word: u32)
    requires { 83 ≤ line.old.room }
    ensures { Added 83 line.old line.new (line_text offset word) }
{
    put_hex(line, 8, offset);
    add(line, b" ");
    put_hex(line, 8, u64::from(word));
    add(line, b" ");
    put_item(line, word);
    add(line, b"\n");
}

// The word in the first four bytes, high byte first.
fn first_word(bytes: &[u8]) -> u32
    requires { 4 ≤ length bytes.now }
    ensures { result ≡ from_be_bytes w32
        (slice_index bytes.now 0 ∷ slice_index bytes.now 1 ∷ slice_index bytes.now 2 ∷ slice_index bytes.now 3 ∷ []) }
{
    u32::from_be_bytes([bytes[0], bytes[1], bytes[2], bytes[3]])
}

fn list_bytes<O: Sink>(out: &mut O, line: &mut OutBuf, bytes: &[u8]) -> Put
    requires { 83 ≤ line.old.room + length line.old.bytes }
    ensures put { PutsText (lines_from 0 bytes.now) result (O.bytes out.old) (O.bytes out.new)
        (O.faults out.old) (O.faults out.new) }
    ensures space { KeepsSpace line.old line.new }
{
    let mut left = bytes;
    let mut offset: u64 = 0;
    while left.len() >= 4 {
        line.clear();
        put_line(line, offset, first_word(left));
        match out.put(line.bytes()) {
            Put::Failed => return Put::Failed,
            Put::Done => {}
        }
        left = bytes_after(left, 4);
        offset += 4;
    }
    Put::Done
}

// Whether section number `i` of a file is loaded and executable, and the file has its bytes.
fn is_listed(bytes: &[u8], i: usize) -> bool
    requires { i < 2 ^ 16 }
    ensures { result ≡ is_listed_at bytes.now i }
{
    let section = header(bytes, i);
    is_loaded(bytes, i) && section.kind != SHT_NOBITS && section.flags & EXECUTABLE != 0
}

// The bytes of section number `i` of a file that are listed.
fn listed(bytes: &[u8], i: usize) -> &[u8]
    requires { i < 2 ^ 16 }
    ensures { lines_from 0 result.now ≡ flat_map section_lines (sects_at bytes.now i) }
{
    if !is_listed(bytes, i) {
        return b"";
    }
    content(bytes, i)
}

/// Writes a line for each word of the executable sections of a module's file: its offset in its section, the word, and
/// its instruction. `line` is a buffer of `LINE_ROOM` bytes. It reads each section from the file's bytes.
pub(crate) fn list<O: Sink>(out: &mut O, line: &mut OutBuf, bytes: &[u8]) -> Put
    requires { 83 ≤ line.old.room + length line.old.bytes }
    ensures { PutsText (listing (module_at bytes.now)) result (O.bytes out.old) (O.bytes out.new) (O.faults out.old)
        (O.faults out.new) }
{
    let count = header_count(bytes);
    for i in 0..count {
        match list_bytes(out, line, listed(bytes, i)) {
            Put::Failed => return Put::Failed,
            Put::Done => {}
        }
    }
    Put::Done
}
