//! Memory in pages, each created at its first write.

ghost use Rattle.std.specs.Prelude.{◌≡◌, Some, ◌+◌, ◌-◌, ◌*◌, ◌%◌, ◌<◌, ◌≤◌, ◌↔◌, IsTrue, IsOk, IfOk, if◌then◌else◌, length, replicate};
ghost use Rattle.byteorder.specs.Endian.{big_bytes};
ghost use Rattle.board_mem.specs.Code.{page_words, AreWords};
ghost use Rattle.board_mem.specs.Memory.{has as has_lem, read, bytes_at};
ghost use Rattle.board_mem.specs.Pages.{page_bytes, unmade, written_at, made_count, ArePages};

use crate::code::{CodePages, entries_of};
use crate::outside::Outside;
use crate::store::{PAGE, fill_in, offset, offset_to_write, put_in, put_word_in, repeated};
use ppc_word::{Decoded, decode_word};
use std::alloc::Global;
use std::marker::Model;
use wind_base::NoMemory;

/// Memory in pages of 4,096 bytes. A page is created at its first write; until then it reads as
/// zeros and uses no memory. The room for all pages is reserved at the start. A contract sees the
/// bytes, and which pages were created.
#[derive(Drop)]
pub struct Pages {
    size: u32,
    // for each page of addresses, the number of its page in the store; 0, the page of zeros, until
    // it is created
    index: Vec<u32>,
    // the same for writers; also 0 for a page with decoded words, which a write drops
    writes: Vec<u32>,
    // a page of zeros, which is never written, and then the created pages
    store: Vec<u8>,
    // the decoded words of pages of code
    code: CodePages,
}

impl Model for Pages {
    ghost use Rattle.std.specs.Prelude.{vec_capacity};
    ghost use Rattle.board_mem.specs.Pages.{PagesState};
    ghost use Rattle.board_mem.specs.Code.{AreCode};
    ghost use Rattle.board_mem.specs.Store.{bytes_of, made_of, IsStore};

    ghost Value = { PagesState };

    ghost view = { λ p. record {
      bytes = bytes_of p.size p.index.items p.store.items;
      made = made_of p.index.items;
    } };

    ghost invariant = { λ p. IsStore p.size p.index.items p.store.items (vec_capacity p.store)
        × AreCode p.index.items p.writes.items p.code.slots.items p.code.owners.items p.code.entries.items p.code.used
        p.code.oldest (vec_capacity p.code.entries) (bytes_of p.size p.index.items p.store.items) };
}

// The greatest number of bytes moved at once.
const BLOCK: u32 = 256;

// The number of bytes from an address to the end of its page.
#[inline(always)]
pub(crate) fn left_in_page(at: u32) -> usize
    ensures value { result ≡ page_bytes - at % page_bytes }
    ensures some { 0 < result }
    ensures within { at % page_bytes + result ≤ page_bytes }
{
    PAGE - at as usize % PAGE
}

impl Pages {
    /// `size` zeros, with no page created. No other call takes memory.
    pub fn new(alloc: Global, size: u32) -> Result<Pages, NoMemory>
        ensures { IfOk result (λ p. p ≡ unmade size) }
    {
        let count = (size as usize + (PAGE - 1)) / PAGE;
        let index = repeated(alloc, 0, count)?;
        let writes = repeated(alloc, 0, count)?;
        let mut store = Vec::with_capacity(alloc, count * PAGE + PAGE)?;
        store.resize(PAGE, 0)?;
        let code = CodePages::new(alloc, count)?;
        Ok(Pages {
            size,
            index,
            writes,
            store,
            code,
        })
    }

    /// The number of bytes.
    #[inline(always)]
    pub fn size(&self) -> u32
        ensures { result ≡ length self.now.bytes }
    {
        self.size
    }

    /// The number of created pages. The contract also states the invariant of the pages.
    pub fn made(&self) -> u32
        ensures count { result ≡ made_count self.now.made }
        ensures sound { ArePages self.now }
    {
        (self.store.len() / PAGE - 1) as u32
    }

    /// The decoded words of a page, in order. An entry is empty if its word isn't decoded, and the
    /// list if none is.
    #[inline(always)]
    pub fn code_of(&self, page: u32) -> &[Decoded]
        ensures words { AreWords result.now self.now.bytes page }
        ensures most { length result.now ≤ page_words }
    {
        let page = page as usize;
        if page >= self.code.slots.len() {
            return &[];
        }
        let number = self.code.slots[page] as usize;
        if number == 0 {
            return &[];
        }
        entries_of(&self.code.entries, number)
    }

    /// Keeps the decoded word at an address.
    #[inline(always)]
    pub fn keep_decoded(&mut self, at: u32, decoded: Decoded)
        requires aligned { at % 4 ≡ 0 }
        requires word { read 4 self.old.bytes at ≡ Some decoded.word }
        ensures { self.new ≡ self.old }
    {
        let page = at / PAGE as u32;
        self.code.keep(page, (at as usize % PAGE) / 4, decoded);
        self.writes[page as usize] = 0;
    }

    // The `n` bytes from an address on, all in one page.
    #[inline(always)]
    pub(crate) fn piece(&self, at: u32, n: usize) -> &[u8]
        requires some { 0 < n }
        requires page { at % page_bytes + n ≤ page_bytes }
        requires there { at + n ≤ length self.now.bytes }
        ensures { result.now ≡ bytes_at self.now.bytes at n }
    {
        let start = offset(&self.index, at as usize);
        &self.store[start..start + n]
    }

    // Writes bytes from an address on, all in its page.
    #[inline(always)]
    pub(crate) fn put(&mut self, at: u32, src: &[u8])
        requires some { 0 < length src.now }
        requires page { at % page_bytes + length src.now ≤ page_bytes }
        requires there { at + length src.now ≤ length self.old.bytes }
        ensures { self.new ≡ written_at self.old at src.now }
    {
        let start = offset_to_write(
            &mut self.index,
            &mut self.writes,
            &mut self.store,
            &mut self.code,
            at as usize,
            src.len(),
        );
        put_in(&mut self.store, start, src);
    }

    // Writes a word at an address, all in its page.
    #[inline(always)]
    pub(crate) fn put_word(&mut self, at: u32, v: u32)
        requires page { at % page_bytes + 4 ≤ page_bytes }
        requires there { at + 4 ≤ length self.old.bytes }
        ensures { self.new ≡ written_at self.old at (big_bytes 4 v) }
    {
        let start = offset_to_write(
            &mut self.index,
            &mut self.writes,
            &mut self.store,
            &mut self.code,
            at as usize,
            4,
        );
        put_word_in(&mut self.store, start, v);
    }

    // Writes a word at an address. `false` if its page wasn't created yet, or has decoded words;
    // then nothing changes.
    #[inline(always)]
    pub(crate) fn put_plain_word(&mut self, at: u32, v: u32) -> bool
        requires aligned { at % 4 ≡ 0 }
        requires there { at + 4 ≤ length self.old.bytes }
        ensures { self.new ≡ (if result then written_at self.old at (big_bytes 4 v) else self.old) }
    {
        let number = self.writes[at as usize / PAGE] as usize;
        if number == 0 {
            return false;
        }
        put_word_in(&mut self.store, number * PAGE + at as usize % PAGE, v);
        true
    }

    // Writes a word at an address over one that is decoded, and keeps it decoded too. `false` if
    // the word there isn't decoded, or the new one is no instruction; then nothing changes.
    #[inline(always)]
    pub(crate) fn put_instruction(&mut self, at: u32, v: u32) -> bool
        requires aligned { at % 4 ≡ 0 }
        requires there { at + 4 ≤ length self.old.bytes }
        ensures { self.new ≡ (if result then written_at self.old at (big_bytes 4 v) else self.old) }
    {
        let number = self.index[at as usize / PAGE] as usize;
        if number == 0 {
            return false;
        }
        let Some(entry) = self.code.entry_at(at as usize) else {
            return false;
        };
        let Some(decoded) = decode_word(v) else {
            return false;
        };
        self.code.entries[entry] = decoded;
        put_word_in(&mut self.store, number * PAGE + at as usize % PAGE, v);
        true
    }

    // Writes this byte `n` times from an address on, all in its page.
    fn put_same(&mut self, at: u32, n: usize, byte: u8)
        requires some { 0 < n }
        requires page { at % page_bytes + n ≤ page_bytes }
        requires there { at + n ≤ length self.old.bytes }
        ensures { self.new ≡ written_at self.old at (replicate n byte) }
    {
        let start = offset_to_write(
            &mut self.index,
            &mut self.writes,
            &mut self.store,
            &mut self.code,
            at as usize,
            n,
        );
        fill_in(&mut self.store, start, n, byte);
    }

    // Writes bytes from an address on, page by page.
    #[inline(never)]
    pub(crate) fn put_across(&mut self, at: u32, src: &[u8])
        requires { at + length src.now ≤ length self.old.bytes }
        ensures { self.new ≡ written_at self.old at src.now }
    {
        let _size = self.size();
        let mut at = at;
        let mut rest = src;
        while !rest.is_empty() {
            let (piece, after) = rest.split_at(left_in_page(at).min(rest.len()));
            self.put(at, piece);
            at += piece.len() as u32;
            rest = after;
        }
    }

    // Writes this byte `n` times from an address on, page by page.
    fn put_same_across(&mut self, at: u32, n: u32, byte: u8)
        requires { at + n ≤ length self.old.bytes }
        ensures { self.new ≡ written_at self.old at (replicate n byte) }
    {
        let _size = self.size();
        let mut at = at;
        let mut left = n;
        while left > 0 {
            let count = (left_in_page(at) as u32).min(left);
            self.put_same(at, count as usize, byte);
            at += count;
            left -= count;
        }
    }

    // Fills `dst` with the bytes from an address on, page by page.
    #[inline(never)]
    pub(crate) fn get_across(&self, at: u32, dst: &mut [u8])
        requires { at + length dst.old ≤ length self.now.bytes }
        ensures { dst.new ≡ bytes_at self.now.bytes at (length dst.old) }
    {
        let _size = self.size();
        let mut done = 0;
        while done < dst.len() {
            let from = at + done as u32;
            let count = left_in_page(from).min(dst.len() - done);
            dst[done..done + count].copy_from_slice(self.piece(from, count));
            done += count;
        }
    }

    /// Whether the `n` bytes from an address on all exist.
    #[inline]
    pub fn has(&self, at: u32, n: usize) -> bool
        ensures { result ≡ has_lem self.now.bytes at n }
    {
        let size = self.size() as usize;
        if n > size {
            return n == 0;
        }
        n == 0 || at as usize + n <= size
    }

    /// Fills `dst` with the bytes from an address on. `Outside` if a byte doesn't exist; then `dst`
    /// is unchanged.
    #[inline]
    pub fn read(&self, at: u32, dst: &mut [u8]) -> Result<(), Outside>
        ensures ok { IsOk result ↔ IsTrue (has_lem self.now.bytes at (length dst.old)) }
        ensures bytes { dst.new ≡ (if has_lem self.now.bytes at (length dst.old)
            then bytes_at self.now.bytes at (length dst.old) else dst.old) }
    {
        if !self.has(at, dst.len()) {
            return Err(Outside);
        }
        if dst.is_empty() {
            return Ok(());
        }
        self.get_across(at, dst);
        Ok(())
    }

    /// Writes the bytes of `src` from an address on, and creates the pages that they are in.
    /// `Outside` if a byte doesn't exist; then nothing is written or created.
    #[inline(always)]
    pub fn write(&mut self, at: u32, src: &[u8]) -> Result<(), Outside>
        ensures ok { IsOk result ↔ IsTrue (has_lem self.old.bytes at (length src.now)) }
        ensures pages { self.new ≡ (if has_lem self.old.bytes at (length src.now)
            then written_at self.old at src.now else self.old) }
    {
        if !self.has(at, src.len()) {
            return Err(Outside);
        }
        if src.is_empty() {
            return Ok(());
        }
        if src.len() <= left_in_page(at) {
            self.put(at, src);
            return Ok(());
        }
        self.put_across(at, src);
        Ok(())
    }

    /// Writes this byte `n` times from an address on, and creates the pages that they are in.
    /// `Outside` if a byte doesn't exist; then nothing is written or created.
    pub fn fill(&mut self, at: u32, n: u32, byte: u8) -> Result<(), Outside>
        ensures ok { IsOk result ↔ IsTrue (has_lem self.old.bytes at n) }
        ensures pages { self.new ≡ (if has_lem self.old.bytes at n
            then written_at self.old at (replicate n byte) else self.old) }
    {
        if !self.has(at, n as usize) {
            return Err(Outside);
        }
        if n == 0 {
            return Ok(());
        }
        self.put_same_across(at, n, byte);
        Ok(())
    }
    // Copies at most `BLOCK` bytes from one address to another. The ranges may overlap.
    fn move_block(&mut self, from: u32, to: u32, n: u32)
        requires block { n ≤ BLOCK }
        requires source { from + n ≤ length self.old.bytes }
        requires place { to + n ≤ length self.old.bytes }
        ensures { self.new ≡ written_at self.old to (bytes_at self.old.bytes from n) }
    {
        let mut block = [0; BLOCK as usize];
        let block = &mut block[..n as usize];
        self.get_across(from, block);
        self.put_across(to, block);
    }

    // Copies bytes to a lower address, lowest byte first.
    fn move_down(&mut self, from: u32, to: u32, n: u32)
        requires down { to ≤ from }
        requires there { from + n ≤ length self.old.bytes }
        ensures { self.new ≡ written_at self.old to (bytes_at self.old.bytes from n) }
    {
        let _size = self.size();
        let (mut from, mut to, mut left) = (from, to, n);
        while left > 0 {
            let count = left.min(BLOCK);
            self.move_block(from, to, count);
            from += count;
            to += count;
            left -= count;
        }
    }

    // Copies bytes to a higher address, highest byte first.
    fn move_up(&mut self, from: u32, to: u32, n: u32)
        requires up { from ≤ to }
        requires there { to + n ≤ length self.old.bytes }
        ensures { self.new ≡ written_at self.old to (bytes_at self.old.bytes from n) }
    {
        let _size = self.size();
        let mut left = n;
        while left > 0 {
            let count = left.min(BLOCK);
            left -= count;
            self.move_block(from + left, to + left, count);
        }
    }

    /// Copies `n` bytes from one address to another. The ranges may overlap: the copy has the bytes
    /// from before.
    pub fn move_bytes(&mut self, from: u32, to: u32, n: u32)
        requires source { IsTrue (has_lem self.old.bytes from n) }
        requires place { IsTrue (has_lem self.old.bytes to n) }
        ensures { self.new ≡ written_at self.old to (bytes_at self.old.bytes from n) }
    {
        if n == 0 {
            return;
        }
        if to <= from {
            self.move_down(from, to, n);
        } else {
            self.move_up(from, to, n);
        }
    }
}
