//! The blocks of a partition together with the holes between them.

ghost use Rattle.std.specs.Prelude.{◌≡◌, ◌≤◌, ◌<◌, ◌^◌, IfOk, IfSome, length, max};
ghost use Rattle.std.specs.Option.{option_map};
ghost use Rattle.mem_partition.specs.Place.{grain, greatest_align, fit_on, Lies};
ghost use Rattle.mem_partition.specs.State.{IsPart, most_room, empty_part, with_block, alloc_on, after_alloc_on, free_of, after_free, block_at, free_bytes};
ghost use Rattle.mem_partition.specs.Holes.{AreHoles, with_holes};

use crate::block::{Block, Class, PartErr};
use crate::gaps::{GRAIN, is_align, round_up};
use crate::held::{count_used, find_at, own_position, put_block};
use crate::hole::{Hole, cut, merge, put_in, with_room};
use gap_vec::GapVec;
use std::alloc::Global;
use std::marker::Model;
use wind_base::{NoMemory, Side};

/// The blocks of a pool and its holes, both in order of address. No hole is empty, no two holes
/// touch, and together with the blocks they make up the pool. Contracts see a partition and its
/// holes.
#[derive(Drop)]
pub struct Holes {
    start: u32,
    end: u32,
    room: u32,
    blocks: GapVec<Block>,
    list: Vec<Hole>,
}

impl Model for Holes {
    ghost use Rattle.std.specs.Prelude.{◌≤◌, ◌<◌, vec_capacity};
    ghost use Rattle.mem_partition.specs.Holes.{HolesState, AreHoles};

    ghost Value = { HolesState };

    ghost view = { λ h. record {
      part = record { start = h.start; end = h.end; room = h.room; blocks = h.blocks.items };
      holes = h.list.items;
    } };

    ghost invariant = { λ h. (h.room ≤ h.blocks.room)
        × (h.room < vec_capacity h.list)
        × AreHoles (record {
          part = record { start = h.start; end = h.end; room = h.room; blocks = h.blocks.items };
          holes = h.list.items;
        }) };
}

impl Holes {
    /// Makes a pool without blocks, with room for `room` blocks and one hole more. No other call
    /// allocates memory.
    pub(crate) fn new(alloc: Global, start: u32, end: u32, room: u32) -> Result<Holes, NoMemory>
        requires { room ≤ most_room }
        ensures { IfOk result (λ h. h ≡ with_holes (empty_part start end room)) }
    {
        let blocks = GapVec::with_capacity(alloc, 2 * room as usize)?;
        let mut list = Vec::with_capacity(alloc, room as usize + 1)?;
        put_in(&mut list, 0, start, end);
        Ok(Holes {
            start,
            end,
            room,
            blocks,
            list,
        })
    }

    /// The blocks in order of address.
    pub fn blocks(&self) -> &[Block]
        ensures { result.now ≡ self.now.part.blocks }
    {
        self.blocks.as_slice()
    }

    /// The holes in order of address. The contract also gives their invariant.
    pub fn list(&self) -> &[Hole]
        ensures value { result.now ≡ self.now.holes }
        ensures sound { AreHoles self.now }
    {
        &self.list
    }

    /// The first address after the pool.
    pub(crate) fn end(&self) -> u32
        ensures value { result ≡ self.now.part.end }
        ensures sound { IsPart self.now.part }
    {
        self.end
    }

    /// The address of a block of `size` bytes in the hole nearest to the side that has room for it,
    /// at a multiple of `align`.
    fn place_on(&self, size: u64, align: u32, side: Side) -> Option<u64>
        requires some { 1 ≤ align }
        requires align { align ≤ greatest_align }
        requires bytes { 0 < size }
        requires size { size < 2 ^ 33 }
        ensures value { result
            ≡ fit_on side self.now.part.start self.now.part.end self.now.part.blocks size (max align grain) }
        ensures lies { IfSome result (λ at. Lies self.now.part.start self.now.part.end self.now.part.blocks size at) }
    {
        with_room(&self.list, size, u64::from(align.max(GRAIN)), side)
    }

    /// Inserts the block, and cuts it out of the hole that contains it.
    fn put(&mut self, block: Block)
        requires some { 0 < block.size }
        requires lies { Lies self.old.part.start self.old.part.end self.old.part.blocks block.size block.addr }
        requires room { length self.old.part.blocks < self.old.part.room }
        ensures { self.new ≡ with_holes (record self.old.part { blocks = with_block block self.old.part.blocks }) }
    {
        cut(&mut self.list, block.addr, block.addr + block.size);
        put_block(&mut self.blocks, block);
    }

    /// The address for a new block, or the first refusal.
    #[tactic(auto, unfolding(crate::specs::State::alloc_on, crate::specs::Place::place))]
    fn find_place(&self, n: u32, align: u32, side: Side) -> Result<u32, PartErr>
        ensures answer { result ≡ alloc_on side self.now.part n align }
        ensures sound { AreHoles self.now }
    {
        let full = self.blocks.as_slice().len() >= self.room as usize;
        if !is_align(align) {
            return Err(PartErr::BadAlign);
        }
        if full {
            return Err(PartErr::BlocksFull);
        }
        let Some(at) = self.place_on(round_up(n), align, side) else {
            return Err(PartErr::NoRoom);
        };
        Ok(at as u32)
    }

    /// As `Part::alloc` and `Part::alloc_high`.
    pub(crate) fn alloc(
        &mut self,
        n: u32,
        align: u32,
        class: Class,
        side: Side,
    ) -> Result<u32, PartErr>
        ensures answer { result ≡ alloc_on side self.old.part n align }
        ensures after { self.new ≡ with_holes (after_alloc_on side self.old.part n align class) }
    {
        match self.find_place(n, align, side) {
            Err(refusal) => Err(refusal),
            Ok(addr) => {
                let size = round_up(n) as u32;
                self.put(Block { addr, size, class });
                Ok(addr)
            }
        }
    }

    /// As `Part::free`.
    pub(crate) fn free(&mut self, addr: u32, class: Class) -> Result<u32, PartErr>
        ensures answer { result ≡ free_of self.old.part addr class }
        ensures after { self.new ≡ with_holes (after_free self.old.part addr class) }
    {
        let Some(position) = own_position(self.blocks.as_slice(), addr, class) else {
            return Err(PartErr::NotABlock);
        };
        let block = self.blocks.remove(position);
        merge(&mut self.list, block.addr, block.addr + block.size);
        Ok(block.size)
    }

    /// As `Part::size_of`.
    pub(crate) fn size_of(&self, addr: u32) -> Option<u32>
        ensures { result ≡ option_map (λ b. b.size) (block_at self.now.part.blocks addr) }
    {
        find_at(self.blocks.as_slice(), addr).map(|block| block.size)
    }

    /// As `Part::free_total`.
    #[tactic(auto, using(crate::proofs::Counting::free_is))]
    pub(crate) fn free_total(&self) -> u32
        ensures { result ≡ free_bytes self.now.part }
    {
        let _room = self.room;
        let used = count_used(self.blocks.as_slice());
        let pool = u64::from(self.end.saturating_sub(self.start));
        pool.saturating_sub(used) as u32
    }
}
