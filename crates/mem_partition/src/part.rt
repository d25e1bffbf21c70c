//! The partition and its calls.

ghost use Rattle.std.specs.Prelude.{◌≡◌, ◌≤◌, IfOk};
ghost use Rattle.std.specs.Option.{option_map};
ghost use Rattle.wind_base.specs.Limits.{most_blocks};
ghost use Rattle.wind_base.specs.declared.board_kind.Side.TheVariants.{High};
ghost use Rattle.mem_partition.specs.State.{IsPart, most_room, empty_part, alloc_of, after_alloc, alloc_on, after_alloc_on, free_of, after_free, block_at, free_bytes};
ghost use Rattle.mem_partition.specs.Holes.{with_holes};

use crate::block::{Class, PartErr};
use crate::holes::Holes;
use std::alloc::Global;
use std::marker::Model;
use wind_base::limits::BLOCKS;
use wind_base::{NoMemory, Side};

/// Blocks in a pool of addresses. Contracts see the pool, the most blocks that it may have, and the
/// blocks in order of address.
#[derive(Drop)]
pub struct Part {
    held: Holes,
}

impl Model for Part {
    ghost use Rattle.std.specs.Prelude.{◌≡◌};
    ghost use Rattle.mem_partition.specs.State.{PartState};
    ghost use Rattle.mem_partition.specs.Holes.{with_holes};

    ghost Value = { PartState };

    ghost view = { λ p. p.held.part };

    ghost invariant = { λ p. p.held ≡ with_holes p.held.part };
}

impl Part {
    /// Makes a partition of the pool from address `start` up to `end`, the first address after it,
    /// with room for 16,384 blocks.
    pub fn new(alloc: Global, start: u32, end: u32) -> Result<Part, NoMemory>
        ensures { IfOk result (λ p. p ≡ empty_part start end most_blocks) }
    {
        Part::with_limit(alloc, start, end, BLOCKS)
    }

    /// Makes a partition of the pool from address `start` up to `end`, the first address after it,
    /// for at most `blocks` blocks, from 0 to 65,536. It reserves room for them and for one hole
    /// more; no later call allocates memory.
    pub fn with_limit(alloc: Global, start: u32, end: u32, blocks: u32) -> Result<Part, NoMemory>
        requires { blocks ≤ most_room }
        ensures { IfOk result (λ p. p ≡ empty_part start end blocks) }
    {
        match Holes::new(alloc, start, end, blocks) {
            Ok(held) => Ok(Part { held }),
            Err(NoMemory) => Err(NoMemory),
        }
    }

    /// The first address after the pool. The contract also gives the invariant of every partition.
    pub fn end(&self) -> u32
        ensures value { result ≡ self.now.end }
        ensures sound { IsPart self.now }
    {
        self.held.end()
    }

    /// Allocates a block of `n` bytes, at least 1, rounded up to a multiple of 16. It is at the
    /// least address of the pool that has room and is a multiple of `align` and of 16. The errors
    /// are checked in this order: `BadAlign`, `BlocksFull`, `NoRoom`.
    pub fn alloc(&mut self, n: u32, align: u32, class: Class) -> Result<u32, PartErr>
        ensures answer { result ≡ alloc_of self.old n align }
        ensures after { self.new ≡ after_alloc self.old n align class }
    {
        self.held.alloc(n, align, class, Side::Low)
    }

    /// As `alloc`, at the greatest such address in place of the least. The errors and their order
    /// are the same.
    pub fn alloc_high(&mut self, n: u32, align: u32, class: Class) -> Result<u32, PartErr>
        ensures answer { result ≡ alloc_on High self.old n align }
        ensures after { self.new ≡ after_alloc_on High self.old n align class }
    {
        self.held.alloc(n, align, class, Side::High)
    }

    /// Frees the block of this class that begins at an address, and returns its size in bytes.
    /// Error `NotABlock` if there is none.
    pub fn free(&mut self, addr: u32, class: Class) -> Result<u32, PartErr>
        ensures answer { result ≡ free_of self.old addr class }
        ensures after { self.new ≡ after_free self.old addr class }
    {
        self.held.free(addr, class)
    }

    /// The size in bytes of the block of any class that begins at an address.
    pub fn size_of(&self, addr: u32) -> Option<u32>
        ensures { result ≡ option_map (λ b. b.size) (block_at self.now.blocks addr) }
    {
        self.held.size_of(addr)
    }

    /// How many bytes of the pool are in no block.
    pub fn free_total(&self) -> u32
        ensures { result ≡ free_bytes self.now }
    {
        self.held.free_total()
    }

    /// The blocks and the holes; the holes are exactly the parts of the pool that are in no block.
    pub fn holes(&self) -> &Holes
        ensures { result.now ≡ with_holes self.now }
    {
        &self.held
    }
}
