//! The memory partition and RAM as JSON.

ghost use Rattle.std.specs.Prelude.{◌≡◌, ◌≤◌, ◌+◌, ◌++◌, ◌^◌, ℕ, [], Option, IfOk, OnOk, Some};
ghost use Rattle.serde_json.specs.View.{view};
ghost use Rattle.trace_state.specs.Inside.{HoldsLast, HoldsRanges, IsRange};
ghost use Rattle.trace_state.specs.Json.{list_of};
ghost use Rattle.trace_state.specs.Memory.{Range as RangeState, Ranges, begun as begun_lem, block_data, class_word as class_word_lem, closed, grown, is_zero as is_zero_lem, ram_data, range_data, unit_bytes, with_unit};

use crate::json::{Items, Members};
use board_mem::Ram;
use mem_partition::{Block, Class, Part};
use serde_json::Value;
use sha2::{Digest, Sha256};
use std::alloc::{AllocError, Global};

// RAM is divided into units of this many bytes. A range is consecutive units that aren't all zero.
const UNIT_BYTES: usize = 256;

static ZEROS: [u8; UNIT_BYTES] = [0; UNIT_BYTES];

// The word for who may free a block.
fn class_word(class: Class) -> &'static str
    ensures { result.now ≡ class_word_lem class }
{
    match class {
        Class::User => "user",
        Class::Kernel => "kernel",
    }
}

// One block of the partition.
fn block_value(alloc: Global, block: &Block) -> Result<Value, AllocError>
    ensures { IfOk result (λ v. view v ≡ block_data block.now) }
{
    let mut members = Members::new(alloc);
    members.put_number("address", u64::from(block.addr))?;
    members.put_number("size", u64::from(block.size))?;
    members.put_word("class", class_word(block.class))?;
    Ok(members.finish())
}

/// The blocks of the partition, in order of address.
pub(crate) fn blocks(alloc: Global, part: &Part) -> Result<Value, AllocError>
    ensures { IfOk result (λ v. view v ≡ list_of block_data part.now.blocks) }
{
    let mut items = Items::new(alloc);
    for block in part.holes().blocks() {
        items.add(block_value(alloc, block)?)?;
    }
    Ok(items.finish())
}

// Whether all bytes of a unit are zero.
fn is_zero(unit: &[u8; UNIT_BYTES]) -> bool
    ensures { result ≡ is_zero_lem unit.now }
{
    unit.as_slice() == ZEROS.as_slice()
}

// A range of RAM: its first address, its length and the hasher of its bytes so far.
#[derive(Drop)]
struct Range {
    start: u32,
    bytes: u64,
    hasher: Sha256,
}

impl Range {
    // An empty range.
    fn new(start: u32) -> Range
        ensures { (at : ℕ) → IsRange at result (record { start = start; bytes = [] }) }
    {
        Range {
            start,
            bytes: 0,
            hasher: Sha256::new(),
        }
    }

    // Adds a unit at the end.
    fn add(&mut self, unit: &[u8; UNIT_BYTES])
        ensures { (at : ℕ) (r : RangeState) → at ≤ 2 ^ 32 → IsRange at self.old r
            → IsRange (at + unit_bytes) self.new (record r { bytes = r.bytes ++ unit.now }) }
    {
        self.hasher.update(unit.as_slice());
        self.bytes = self.bytes.saturating_add(UNIT_BYTES as u64);
    }

    // The range as JSON.
    fn value(self, alloc: Global) -> Result<Value, AllocError>
        ensures { IfOk result (λ v. (at : ℕ) (r : RangeState) → IsRange at self r → view v ≡ range_data r) }
    {
        let Range {
            start,
            bytes,
            hasher,
        } = self;
        let digest = hex::encode(alloc, hasher.finalize())?;
        let mut members = Members::new(alloc);
        members.put_number("address", u64::from(start))?;
        members.put_number("size", bytes)?;
        members.put_word("sha256", digest.as_str())?;
        Ok(members.finish())
    }
}

// The range that goes on at an address; an empty one begins there if none does.
fn begun(last: Option<Range>, start: u32) -> Range
    ensures { (r : Option RangeState) → HoldsLast start last r → IsRange start result (begun_lem r start) }
{
    match last {
        Some(range) => range,
        None => Range::new(start),
    }
}

// The ranges of RAM up to an address: those that have ended, and the one that ends there, if any.
#[derive(Drop)]
struct RamRanges {
    ended: Items,
    last: Option<Range>,
}

impl RamRanges {
    // Ends the last range.
    fn end(&mut self, alloc: Global) -> Result<(), AllocError>
        ensures { OnOk result ((at : ℕ) (r : Ranges) → HoldsRanges at self.old r
            → HoldsRanges at self.new (closed r)) }
    {
        let Some(range) = self.last.take() else {
            return Ok(());
        };
        self.ended.add(range.value(alloc)?)
    }

    // Adds a unit to the last range, or begins one with it.
    fn grow(&mut self, start: u32, unit: &[u8; UNIT_BYTES])
        ensures { (r : Ranges) → HoldsRanges start self.old r → HoldsRanges (start + unit_bytes) self.new
            (record r { last = Some (grown r.last start unit.now) }) }
    {
        let mut range = begun(self.last.take(), start);
        range.add(unit);
        self.last = Some(range);
    }

    // Adds the unit at this address.
    fn add_unit(
        &mut self,
        alloc: Global,
        start: u32,
        unit: &[u8; UNIT_BYTES],
    ) -> Result<(), AllocError>
        ensures { OnOk result ((r : Ranges) → HoldsRanges start self.old r
            → HoldsRanges (start + unit_bytes) self.new (with_unit r start unit.now)) }
    {
        if is_zero(unit) {
            return self.end(alloc);
        }
        self.grow(start, unit);
        Ok(())
    }
}

/// The ranges of RAM that aren't all zero, in order of address.
pub(crate) fn ranges(alloc: Global, ram: &Ram) -> Result<Value, AllocError>
    ensures { IfOk result (λ v. view v ≡ ram_data ram.now.bytes) }
{
    let mut ranges = RamRanges {
        ended: Items::new(alloc),
        last: None,
    };
    let mut unit = [0; UNIT_BYTES];
    for place in 0..ram.size() / UNIT_BYTES as u32 {
        let start = place * UNIT_BYTES as u32;
        let _ = ram.copy_out(start, &mut unit);
        ranges.add_unit(alloc, start, &unit)?;
    }
    ranges.end(alloc)?;
    Ok(ranges.ended.finish())
}
