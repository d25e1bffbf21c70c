//! The store of the pages, and the number that each page of addresses has in it.

ghost use Rattle.std.specs.Prelude.{◌≡◌, ◌+◌, ◌%◌, ◌<◌, ◌≤◌, ℕ, List, IfOk, length, replicate, slice_index, vec_capacity};
ghost use Rattle.byteorder.specs.Endian.{big_bytes};
ghost use Rattle.board_mem.specs.Memory.{with_bytes};
ghost use Rattle.board_mem.specs.Code.{AreDecoded, AreSlots, AreWritable, SameElsewhere};
ghost use Rattle.board_mem.specs.Pages.{page_of, page_bytes};
ghost use Rattle.board_mem.specs.Store.{AreStored, IsMade, offset_of};

use crate::code::CodePages;
use byteorder::{BigEndian, ByteOrder};
use std::alloc::Global;
use wind_base::NoMemory;

/// The size of a page in bytes.
pub const PAGE: usize = 4_096;

// The greatest number of values that are filled in at once.
const PIECE: usize = 256;

/// A list of `n` times this value. It is filled in pieces, because `memset` fills more than 2 KiB
/// by a string instruction, which callgrind counts once a byte.
pub(crate) fn repeated<T: Copy>(alloc: Global, value: T, n: usize) -> Result<Vec<T>, NoMemory>
    ensures { IfOk result (λ v. v.items ≡ replicate n value) }
{
    let mut items = Vec::with_capacity(alloc, n)?;
    while items.len() < n {
        let len = items.len();
        items.resize(len + PIECE.min(n - len), value)?;
    }
    Ok(items)
}

// Creates a page: appends a page of zeros to the store, and returns its number.
#[cold]
#[inline(never)]
fn make(index: &mut [u32], store: &mut Vec<u8>, page: usize) -> usize
    requires stored { AreStored index.old store.old.items (vec_capacity store.old) }
    requires there { page < length index.old }
    requires unmade { slice_index index.old page ≡ 0 }
    ensures made { IsMade index.old store.old.items index.new store.new.items (vec_capacity store.new) page }
    ensures number { slice_index index.new page ≡ result }
{
    let len = store.len();
    let Ok(()) = store.resize(len + PAGE, 0) else {
        unreachable!()
    };
    let number = len / PAGE;
    index[page] = number as u32;
    number
}

// The number of a page in the store. The page is created if it wasn't yet.
#[inline(always)]
fn number_made(index: &mut [u32], store: &mut Vec<u8>, page: usize) -> usize
    requires stored { AreStored index.old store.old.items (vec_capacity store.old) }
    requires there { page < length index.old }
    ensures made { IsMade index.old store.old.items index.new store.new.items (vec_capacity store.new) page }
    ensures number { slice_index index.new page ≡ result }
{
    let number = index[page] as usize;
    if number != 0 {
        return number;
    }
    make(index, store, page)
}

// Gives the writers the number of a page again, unless the page has a slot.
fn renew_number(index: &[u32], writes: &mut [u32], slots: &[u8], page: usize)
    requires writable { AreWritable index.now writes.old slots.now }
    requires there { page < length index.now }
    ensures { AreWritable index.now writes.new slots.now }
{
    if slots[page] == 0 {
        writes[page] = index[page];
    }
}

// The number of a page that writers have no number for: the page is created if it wasn't yet, and
// the decoded words that the `n` bytes from an address on are in are dropped.
#[cold]
#[inline(never)]
fn number_looked_up(
    index: &mut [u32],
    writes: &mut [u32],
    store: &mut Vec<u8>,
    code: &mut CodePages,
    at: usize,
    n: usize,
) -> usize
    requires stored { AreStored index.old store.old.items (vec_capacity store.old) }
    requires there { page_of at < length index.old }
    requires some { 0 < n }
    requires whole { at % page_bytes + n ≤ page_bytes }
    requires writable { AreWritable index.old writes.old code.old.slots.items }
    requires slotted { AreSlots code.old.slots.items code.old.owners.items code.old.entries.items code.old.used
        code.old.oldest (vec_capacity code.old.entries) }
    ensures made { IsMade index.old store.old.items index.new store.new.items (vec_capacity store.new) (page_of at) }
    ensures number { slice_index index.new (page_of at) ≡ result }
    ensures writable { AreWritable index.new writes.new code.new.slots.items }
    ensures slotted { AreSlots code.new.slots.items code.new.owners.items code.new.entries.items code.new.used
        code.new.oldest (vec_capacity code.new.entries) }
    ensures decoded { (before after : List ℕ) → SameElsewhere before after at n
        → AreDecoded code.old.slots.items code.old.entries.items before
        → AreDecoded code.new.slots.items code.new.entries.items after }
{
    let page = at / PAGE;
    code.drop_words(at, n);
    let number = number_made(index, store, page);
    renew_number(index, writes, &code.slots, page);
    number
}

// The number of the page of the `n` bytes from an address on, which are written next. The page is
// created if it wasn't yet, and the decoded words that the bytes are in are dropped.
#[inline(always)]
fn number_to_write(
    index: &mut [u32],
    writes: &mut [u32],
    store: &mut Vec<u8>,
    code: &mut CodePages,
    at: usize,
    n: usize,
) -> usize
    requires stored { AreStored index.old store.old.items (vec_capacity store.old) }
    requires there { page_of at < length index.old }
    requires some { 0 < n }
    requires whole { at % page_bytes + n ≤ page_bytes }
    requires writable { AreWritable index.old writes.old code.old.slots.items }
    requires slotted { AreSlots code.old.slots.items code.old.owners.items code.old.entries.items code.old.used
        code.old.oldest (vec_capacity code.old.entries) }
    ensures made { IsMade index.old store.old.items index.new store.new.items (vec_capacity store.new) (page_of at) }
    ensures number { slice_index index.new (page_of at) ≡ result }
    ensures writable { AreWritable index.new writes.new code.new.slots.items }
    ensures slotted { AreSlots code.new.slots.items code.new.owners.items code.new.entries.items code.new.used
        code.new.oldest (vec_capacity code.new.entries) }
    ensures decoded { (before after : List ℕ) → SameElsewhere before after at n
        → AreDecoded code.old.slots.items code.old.entries.items before
        → AreDecoded code.new.slots.items code.new.entries.items after }
{
    let number = writes[at / PAGE] as usize;
    if number != 0 {
        return number;
    }
    number_looked_up(index, writes, store, code, at, n)
}

/// The index in the store of the byte at an address, from which on `n` bytes are written next, all
/// in one page. The page is created if it wasn't yet, and the decoded words that the bytes are in
/// are dropped.
#[inline(always)]
pub(crate) fn offset_to_write(
    index: &mut [u32],
    writes: &mut [u32],
    store: &mut Vec<u8>,
    code: &mut CodePages,
    at: usize,
    n: usize,
) -> usize
    requires stored { AreStored index.old store.old.items (vec_capacity store.old) }
    requires there { page_of at < length index.old }
    requires some { 0 < n }
    requires whole { at % page_bytes + n ≤ page_bytes }
    requires writable { AreWritable index.old writes.old code.old.slots.items }
    requires slotted { AreSlots code.old.slots.items code.old.owners.items code.old.entries.items code.old.used
        code.old.oldest (vec_capacity code.old.entries) }
    ensures made { IsMade index.old store.old.items index.new store.new.items (vec_capacity store.new) (page_of at) }
    ensures offset { result ≡ offset_of index.new at }
    ensures writable { AreWritable index.new writes.new code.new.slots.items }
    ensures slotted { AreSlots code.new.slots.items code.new.owners.items code.new.entries.items code.new.used
        code.new.oldest (vec_capacity code.new.entries) }
    ensures decoded { (before after : List ℕ) → SameElsewhere before after at n
        → AreDecoded code.old.slots.items code.old.entries.items before
        → AreDecoded code.new.slots.items code.new.entries.items after }
{
    number_to_write(index, writes, store, code, at, n) * PAGE + at % PAGE
}

/// The index in the store of the byte at an address.
#[inline(always)]
pub(crate) fn offset(index: &[u32], at: usize) -> usize
    requires there { page_of at < length index.now }
    ensures { result ≡ offset_of index.now at }
{
    index[at / PAGE] as usize * PAGE + at % PAGE
}

/// Writes bytes from an index on.
#[inline(always)]
pub(crate) fn put_in(store: &mut [u8], start: usize, src: &[u8])
    requires { start + length src.now ≤ length store.old }
    ensures { store.new ≡ with_bytes store.old start src.now }
{
    store[start..start + src.len()].copy_from_slice(src);
}

/// Writes a word from an index on, most significant byte first.
#[inline(always)]
pub(crate) fn put_word_in(store: &mut [u8], start: usize, v: u32)
    requires { start + 4 ≤ length store.old }
    ensures { store.new ≡ with_bytes store.old start (big_bytes 4 v) }
{
    BigEndian::write_u32(&mut store[start..start + 4], v);
}

/// Writes this byte `n` times from an index on.
pub(crate) fn fill_in(store: &mut [u8], start: usize, n: usize, byte: u8)
    requires { start + n ≤ length store.old }
    ensures { store.new ≡ with_bytes store.old start (replicate n byte) }
{
    store[start..start + n].fill(byte);
}
