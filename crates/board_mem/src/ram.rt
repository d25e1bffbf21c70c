//! RAM.

ghost use Rattle.std.specs.Prelude.{◌≡◌, ◌<◌, ◌≤◌, ◌+◌, ◌^◌, ◌==◌, ◌↔◌, IsTrue, IsOk, IfOk, IfSome, if◌then◌else◌, length, take, position, replicate, None, Some, ◌%◌};
ghost use Rattle.wind_base.specs.Limits.{longest_string};
ghost use Rattle.board_mem.specs.Memory.{has, read, written, number_at, bytes_at, with_bytes, with_number, string_length, string_at, string_over};
ghost use Rattle.board_mem.specs.Code.{page_words, AreWords};
ghost use Rattle.board_mem.specs.Pages.{unmade, made_by};
ghost use Rattle.ppc_word.specs.Rows.{row_of};
ghost use Rattle.std.specs.Option.{option_map, option_and_then};

use crate::outside::Outside;
use crate::pages::{Pages, left_in_page};
use crate::ram_string::{RamString, STRING_ROOM};
use byteorder::{BigEndian, ByteOrder};
use ppc_word::{Decoded, decode_word};
use std::alloc::Global;
use std::marker::Model;
use wind_base::NoMemory;

/// RAM, from address 0 on. Numbers of several bytes have their most significant byte first. A
/// contract sees its bytes, and whether each page was created.
#[derive(Drop)]
pub struct Ram {
    pages: Pages,
}

impl Model for Ram {
    ghost use Rattle.board_mem.specs.Pages.{PagesState};

    ghost Value = { PagesState };

    ghost view = { λ r. r.pages };
}

impl Ram {
    /// `size` zeros. No page is created.
    pub fn new(alloc: Global, size: u32) -> Result<Ram, NoMemory>
        ensures { IfOk result (λ ram. ram ≡ unmade size) }
    {
        Ok(Ram {
            pages: Pages::new(alloc, size)?,
        })
    }

    /// The pages.
    pub fn pages(&self) -> &Pages
        ensures { result.now ≡ self.now }
    {
        &self.pages
    }

    /// The number of bytes.
    pub fn size(&self) -> u32
        ensures { result ≡ length self.now.bytes }
    {
        self.pages.size()
    }

    /// Whether the `n` bytes from an address on are all in RAM.
    #[inline(always)]
    pub fn has(&self, addr: u32, n: u32) -> bool
        ensures is { result ≡ has self.now.bytes addr n }
        ensures end { IsTrue result → 0 < n → addr + n < 2 ^ 32 }
    {
        n == 0 || addr as usize + n as usize <= self.pages.size() as usize
    }

    /// The byte at an address. None if it is outside RAM.
    #[inline(always)]
    pub fn read8(&self, addr: u32) -> Option<u32>
        ensures is { result ≡ read 1 self.now.bytes addr }
        ensures below { IfSome result (λ v. v < 2 ^ 8) }
    {
        if !self.has(addr, 1) {
            return None;
        }
        Some(self.pages.piece(addr, 1)[0] as u32)
    }

    /// The halfword at an address, with any alignment. None if a byte of it is outside RAM.
    #[inline(always)]
    pub fn read16(&self, addr: u32) -> Option<u32>
        ensures is { result ≡ read 2 self.now.bytes addr }
        ensures below { IfSome result (λ v. v < 2 ^ 16) }
    {
        if !self.has(addr, 2) {
            return None;
        }
        if left_in_page(addr) >= 2 {
            return Some(BigEndian::read_u16(self.pages.piece(addr, 2)) as u32);
        }
        Some(self.half_word_across(addr))
    }

    // The halfword at an address, with one byte in each of two pages.
    #[cold]
    #[inline(never)]
    fn half_word_across(&self, addr: u32) -> u32
        requires { IsTrue (has self.now.bytes addr 2) }
        ensures is { result ≡ number_at 2 self.now.bytes addr }
        ensures below { result < 2 ^ 16 }
    {
        let mut bytes = [0; 2];
        self.pages.get_across(addr, &mut bytes);
        BigEndian::read_u16(&bytes) as u32
    }

    /// The word at an address, with any alignment. None if a byte of it is outside RAM.
    #[inline(always)]
    pub fn read32(&self, addr: u32) -> Option<u32>
        ensures { result ≡ read 4 self.now.bytes addr }
    {
        if !self.has(addr, 4) {
            return None;
        }
        if addr % 4 != 0 {
            return Some(self.unaligned_word(addr));
        }
        Some(BigEndian::read_u32(self.pages.piece(addr, 4)))
    }

    // The word at an address that isn't a multiple of 4, so that its bytes may be in two pages.
    #[cold]
    #[inline(never)]
    fn unaligned_word(&self, addr: u32) -> u32
        requires { IsTrue (has self.now.bytes addr 4) }
        ensures { result ≡ number_at 4 self.now.bytes addr }
    {
        let mut bytes = [0; 4];
        self.pages.get_across(addr, &mut bytes);
        BigEndian::read_u32(&bytes)
    }

    /// The decoded words of a page, in order: 1,024, or none. An entry is empty if its word isn't
    /// decoded. What is decoded isn't part of what a contract sees of RAM, and each write drops or
    /// decodes again what it changes.
    #[inline(always)]
    pub fn code_of(&self, page: u32) -> &[Decoded]
        ensures words { AreWords result.now self.now.bytes page }
        ensures most { length result.now ≤ page_words }
    {
        self.pages.code_of(page)
    }

    /// The decoded word at an address, which is kept for `code_of`. None if the address isn't a
    /// multiple of 4, if a byte of the word is outside RAM, or if the word is no instruction's.
    #[inline(always)]
    pub fn decode_at(&mut self, addr: u32) -> Option<Decoded>
        ensures same { self.new ≡ self.old }
        ensures word { IfSome result (λ d. read 4 self.old.bytes addr ≡ Some d.word) }
        ensures row { option_map (λ d. d.row) result
            ≡ (if addr % 4 == 0 then option_and_then row_of (read 4 self.old.bytes addr) else None) }
    {
        if addr % 4 != 0 {
            return None;
        }
        let word = self.read32(addr)?;
        let decoded = decode_word(word)?;
        self.pages.keep_decoded(addr, decoded);
        Some(decoded)
    }

    /// Writes the low byte of `v` at an address. `Outside` if it is outside RAM; then nothing
    /// changes.
    #[inline(always)]
    pub fn write8(&mut self, addr: u32, v: u32) -> Result<(), Outside>
        ensures ok { IsOk result ↔ IsTrue (has self.old.bytes addr 1) }
        ensures bytes { self.new.bytes ≡ written 1 self.old.bytes addr v }
        ensures made { self.new.made ≡ made_by self.old addr 1 }
    {
        if !self.has(addr, 1) {
            return Err(Outside);
        }
        self.pages.put(addr, &[(v % 0x100) as u8]);
        Ok(())
    }

    /// Writes the low halfword of `v` at an address. `Outside` if a byte of it is outside RAM; then
    /// nothing changes.
    #[inline(always)]
    pub fn write16(&mut self, addr: u32, v: u32) -> Result<(), Outside>
        ensures ok { IsOk result ↔ IsTrue (has self.old.bytes addr 2) }
        ensures bytes { self.new.bytes ≡ written 2 self.old.bytes addr v }
        ensures made { self.new.made ≡ made_by self.old addr 2 }
    {
        if !self.has(addr, 2) {
            return Err(Outside);
        }
        if left_in_page(addr) >= 2 {
            let mut bytes = [0; 2];
            BigEndian::write_u16(&mut bytes, (v % 0x1_0000) as u16);
            self.pages.put(addr, &bytes);
            return Ok(());
        }
        self.put_half_word_across(addr, v);
        Ok(())
    }

    // Writes a halfword, with one byte in each of two pages.
    #[cold]
    #[inline(never)]
    fn put_half_word_across(&mut self, addr: u32, v: u32)
        requires { IsTrue (has self.old.bytes addr 2) }
        ensures bytes { self.new.bytes ≡ with_number 2 self.old.bytes addr v }
        ensures made { self.new.made ≡ made_by self.old addr 2 }
    {
        let mut bytes = [0; 2];
        BigEndian::write_u16(&mut bytes, (v % 0x1_0000) as u16);
        self.pages.put_across(addr, &bytes);
    }

    /// Writes a word at an address. `Outside` if a byte of it is outside RAM; then nothing changes.
    #[inline(always)]
    pub fn write32(&mut self, addr: u32, v: u32) -> Result<(), Outside>
        ensures ok { IsOk result ↔ IsTrue (has self.old.bytes addr 4) }
        ensures bytes { self.new.bytes ≡ written 4 self.old.bytes addr v }
        ensures made { self.new.made ≡ made_by self.old addr 4 }
    {
        if !self.has(addr, 4) {
            return Err(Outside);
        }
        if addr % 4 != 0 {
            self.put_unaligned_word(addr, v);
            return Ok(());
        }
        if !self.pages.put_plain_word(addr, v) {
            self.put_word_in_code(addr, v);
        }
        Ok(())
    }

    // Writes a word at a multiple of 4, in any page. If the word there was decoded, the new one is
    // decoded too: code that writes its own words executes them soon.
    #[cold]
    #[inline(never)]
    fn put_word_in_code(&mut self, addr: u32, v: u32)
        requires aligned { addr % 4 ≡ 0 }
        requires there { addr + 4 ≤ length self.old.bytes }
        ensures bytes { self.new.bytes ≡ with_number 4 self.old.bytes addr v }
        ensures made { self.new.made ≡ made_by self.old addr 4 }
    {
        if !self.pages.put_instruction(addr, v) {
            self.pages.put_word(addr, v);
        }
    }

    // Writes a word at an address that isn't a multiple of 4, so that its bytes may be in two
    // pages.
    #[cold]
    #[inline(never)]
    fn put_unaligned_word(&mut self, addr: u32, v: u32)
        requires { IsTrue (has self.old.bytes addr 4) }
        ensures bytes { self.new.bytes ≡ with_number 4 self.old.bytes addr v }
        ensures made { self.new.made ≡ made_by self.old addr 4 }
    {
        let mut bytes = [0; 4];
        BigEndian::write_u32(&mut bytes, v);
        self.pages.put_across(addr, &bytes);
    }

    /// Fills `dst` with the bytes from an address on. `Outside` if a byte is outside RAM; then
    /// `dst` is unchanged.
    pub fn copy_out(&self, addr: u32, dst: &mut [u8]) -> Result<(), Outside>
        ensures ok { IsOk result ↔ IsTrue (has self.now.bytes addr (length dst.old)) }
        ensures bytes { dst.new ≡ (if has self.now.bytes addr (length dst.old)
            then bytes_at self.now.bytes addr (length dst.old) else dst.old) }
    {
        self.pages.read(addr, dst)
    }

    /// Writes the bytes of `src` from an address on. `Outside` if a byte is outside RAM; then
    /// nothing changes.
    #[inline(always)]
    pub fn copy_in(&mut self, addr: u32, src: &[u8]) -> Result<(), Outside>
        ensures ok { IsOk result ↔ IsTrue (has self.old.bytes addr (length src.now)) }
        ensures bytes { self.new.bytes ≡ (if has self.old.bytes addr (length src.now)
            then with_bytes self.old.bytes addr src.now else self.old.bytes) }
        ensures made { self.new.made ≡ made_by self.old addr (length src.now) }
    {
        self.pages.write(addr, src)
    }

    /// Writes this byte `n` times from an address on. `Outside` if a byte is outside RAM; then
    /// nothing changes.
    pub fn fill(&mut self, addr: u32, n: u32, byte: u8) -> Result<(), Outside>
        ensures ok { IsOk result ↔ IsTrue (has self.old.bytes addr n) }
        ensures bytes { self.new.bytes ≡ (if has self.old.bytes addr n
            then with_bytes self.old.bytes addr (replicate n byte) else self.old.bytes) }
        ensures made { self.new.made ≡ made_by self.old addr n }
    {
        self.pages.fill(addr, n, byte)
    }

    /// Copies `n` bytes from one address to another. The ranges may overlap: the copy has the bytes
    /// from before.
    pub fn move_bytes(&mut self, from: u32, to: u32, n: u32)
        requires source { IsTrue (has self.old.bytes from n) }
        requires place { IsTrue (has self.old.bytes to n) }
        ensures bytes { self.new.bytes ≡ with_bytes self.old.bytes to (bytes_at self.old.bytes from n) }
        ensures made { self.new.made ≡ made_by self.old to n }
    {
        self.pages.move_bytes(from, to, n);
    }

    // Fills a prefix of `bytes` with those from an address on: as many as the longest string has
    // with its zero, or all that RAM has. Returns their number.
    fn prefix(&self, addr: u32, bytes: &mut [u8; STRING_ROOM]) -> usize
        ensures prefix { take result bytes.new ≡ bytes_at self.now.bytes addr (longest_string + 1) }
        ensures within { result ≤ longest_string + 1 }
    {
        let size = self.pages.size();
        if addr >= size {
            return 0;
        }
        let count = ((size - addr) as usize).min(STRING_ROOM);
        self.pages.get_across(addr, &mut bytes[..count]);
        count
    }

    /// A copy of the zero-terminated string at an address, without its zero. None if there is no
    /// zero among the first 1,024 bytes, or if a byte before it is outside RAM.
    pub fn string(&self, addr: u32) -> Option<RamString>
        ensures { result ≡ string_at self.now.bytes addr }
    {
        let mut bytes = [0; STRING_ROOM];
        let count = self.prefix(addr, &mut bytes);
        let length = offset_of_zero(&bytes[..count])?;
        Some(RamString::of_prefix(bytes, length))
    }

    /// Copies the zero-terminated string at an address to the beginning of `dst`, without its zero,
    /// and returns its length in bytes. None if there is no zero among the first 1,024 bytes, or if
    /// a byte before it is outside RAM; then `dst` is unchanged.
    pub fn cstr(&self, addr: u32, dst: &mut [u8; STRING_ROOM]) -> Option<u32>
        ensures count { result ≡ string_length self.now.bytes addr }
        ensures bytes { dst.new ≡ string_over self.now.bytes addr result dst.old }
    {
        let mut bytes = [0; STRING_ROOM];
        let count = self.prefix(addr, &mut bytes);
        let n = offset_of_zero(&bytes[..count])?;
        dst[..n].copy_from_slice(&bytes[..n]);
        Some(n as u32)
    }
}

// The index of the first zero. None if there is no zero.
fn offset_of_zero(bytes: &[u8]) -> Option<usize>
    ensures is { result ≡ position (λ b. b == 0) bytes.now }
    ensures within { IfSome result (λ k. k < length bytes.now) }
{
    bytes.iter().position(|b| *b == 0)
}
