//! The allocated blocks, in order of address.

ghost use Rattle.std.specs.Prelude.{◌≡◌, ◌<◌, ◌≤◌, ◌^◌, ◌==◌, ◌&&◌, None, length, option_copied, MatchOption, nat_lt};
ghost use Rattle.std.specs.List.{position_or_len};
ghost use Rattle.std.specs.List.Sorted.{IsNonDecreasingBy};
ghost use Rattle.mem_partition.specs.State.{with_block, same_class, block_at, own_block, used};
ghost use Rattle.mem_partition.specs.Own.{Rising, IsOwn};

use crate::block::{Block, Class};
use gap_vec::GapVec;

/// How many blocks begin at or before an address.
fn rank_of(blocks: &[Block], at: u32) -> usize
    requires { IsNonDecreasingBy (λ b. b.addr) blocks.now }
    ensures value { result ≡ position_or_len (λ b. nat_lt at b.addr) blocks.now }
    ensures within { result ≤ length blocks.now }
{
    blocks.partition_point(|block| block.addr <= at)
}

/// Inserts the block at its position.
pub(crate) fn put_block(blocks: &mut GapVec<Block>, block: Block)
    requires room { length blocks.old.items < blocks.old.room }
    requires order { IsNonDecreasingBy (λ b. b.addr) blocks.old.items }
    ensures items { blocks.new.items ≡ with_block block blocks.old.items }
    ensures room { blocks.old.room ≤ blocks.new.room }
{
    let position = rank_of(blocks.as_slice(), block.addr);
    blocks.insert(position, block);
}

fn is_same(a: Class, b: Class) -> bool
    ensures { result ≡ same_class a b }
{
    match (a, b) {
        (Class::User, Class::User) | (Class::Kernel, Class::Kernel) => true,
        _ => false,
    }
}

/// Whether a block is of this class and begins at an address.
fn is_own(block: &Block, at: u32, class: Class) -> bool
    ensures { result ≡ (block.now.addr == at && same_class block.now.class class) }
{
    block.addr == at && is_same(block.class, class)
}

/// The position of the block of this class that begins at an address.
pub(crate) fn own_position(blocks: &[Block], at: u32, class: Class) -> Option<usize>
    requires { Rising blocks.now }
    ensures { MatchOption result (own_block blocks.now at class ≡ None) (λ k. IsOwn blocks.now at class k) }
{
    let rank = rank_of(blocks, at);
    if rank == 0 {
        return None;
    }
    if is_own(&blocks[rank - 1], at, class) {
        Some(rank - 1)
    } else {
        None
    }
}

/// The block that begins at an address.
pub(crate) fn find_at(blocks: &[Block], at: u32) -> Option<&Block>
    ensures { option_copied result ≡ block_at blocks.now at }
{
    blocks.iter().find(|block| block.addr == at)
}

/// How many bytes are in blocks.
pub(crate) fn count_used(blocks: &[Block]) -> u64
    requires { length blocks.now < 2 ^ 32 }
    ensures { result ≡ used blocks.now }
{
    blocks.iter().map(|block| u64::from(block.size)).sum()
}
