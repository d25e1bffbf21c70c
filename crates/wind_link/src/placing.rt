//! Tests where the segments of modules are placed.

ghost use Rattle.std.specs.Prelude.{◌≡◌, ◌≤◌, ◌<◌, None, true, OnOk, IfOk, IfErr};
ghost use Rattle.mem_partition.specs.Place.{is_apart as is_apart_lem, meets_none as meets_none_lem, fits as fits_lem};
ghost use Rattle.module_image.specs.Opening.{stack_block, opening_blocks as opening_blocks_lem};
ghost use Rattle.wind_base.specs.Limits.{ram_bytes};
ghost use Rattle.wind_link.specs.Placing.{is_placed as is_placed_lem, with_segment, with_module, wrong_segment};
ghost use Rattle.wind_link.specs.Steps.{AreAligned, Tells, IsPlacedOr};

use mem_partition::{Block, Class};
use module_image::{Need, Needs, Places, SegmentKind};
use std::alloc::{AllocError, Global};
use wind_base::limits::{INTERRUPT_STACK_BYTES, POOL_START, RAM_BYTES, SHELL_STACK_BYTES};

/// Why a module isn't placed.
#[derive(Clone, Copy, Debug, PartialEq, Eq)]
pub(crate) enum PlaceErr {
    /// The first segment that is wrongly placed.
    Wrong(SegmentKind),
    /// Host memory ran out.
    NoMemory,
}

// A block of the kernel.
fn kernel_block(addr: u32, size: u32) -> Block
    ensures { result ≡ stack_block addr size }
{
    Block {
        addr,
        size,
        class: Class::Kernel,
    }
}

/// The blocks that the pool has at the start.
pub(crate) fn opening_blocks(alloc: Global) -> Result<Vec<Block>, AllocError>
    ensures { IfOk result (λ v. v.items ≡ opening_blocks_lem) }
{
    let mut blocks = Vec::new(alloc);
    blocks.push(kernel_block(POOL_START, SHELL_STACK_BYTES))?;
    let interrupt_stack = POOL_START + SHELL_STACK_BYTES;
    blocks.push(kernel_block(interrupt_stack, INTERRUPT_STACK_BYTES))?;
    Ok(blocks)
}

fn is_apart(block: &Block, size: u32, at: u32) -> bool
    ensures { result ≡ is_apart_lem size at block.now }
{
    let start = u64::from(at);
    let taken = u64::from(block.addr);
    let taken_size = u64::from(block.size);
    start + u64::from(size) <= taken || taken + taken_size <= start
}

fn meets_none(taken: &[Block], size: u32, at: u32) -> bool
    ensures { result ≡ meets_none_lem taken.now size at }
{
    taken.iter().all(|block| is_apart(block, size, at))
}

fn fits(taken: &[Block], need: Need, at: u32) -> bool
    requires { 1 ≤ need.align }
    ensures { result ≡ fits_lem ram_bytes taken.now need.size need.align at }
{
    let most = u64::from(RAM_BYTES);
    if at % need.align != 0 || most < need.size || most < u64::from(at) + need.size {
        return false;
    }
    meets_none(taken, need.size as u32, at)
}

fn is_placed(taken: &[Block], need: Need, at: u32) -> bool
    requires { 1 ≤ need.align }
    ensures { result ≡ is_placed_lem taken.now need at }
{
    if need.size == 0 {
        at == 0
    } else {
        POOL_START <= at && fits(taken, need, at)
    }
}

// Takes the block of a segment, if the segment is rightly placed.
fn take_segment(
    taken: &mut Vec<Block>,
    kind: SegmentKind,
    need: Need,
    at: u32,
) -> Result<(), PlaceErr>
    requires { 1 ≤ need.align }
    ensures placed { OnOk result (is_placed_lem taken.old.items need at ≡ true) }
    ensures taken { OnOk result (taken.new.items ≡ with_segment taken.old.items need at) }
    ensures wrong { IfErr result (IsPlacedOr kind (is_placed_lem taken.old.items need at)) }
{
    if !is_placed(taken, need, at) {
        return Err(PlaceErr::Wrong(kind));
    }
    if need.size == 0 {
        return Ok(());
    }
    match taken.push(kernel_block(at, need.size as u32)) {
        Ok(()) => Ok(()),
        Err(_) => Err(PlaceErr::NoMemory),
    }
}

/// Takes the blocks of a module's segments, or finds the first segment that is wrongly placed. With
/// an error some of the blocks may be taken.
#[tactic(auto, unfolding(crate::specs::Placing::wrong_segment))]
pub(crate) fn take_module(taken: &mut Vec<Block>, needs: Needs, at: Places) -> Result<(), PlaceErr>
    requires { AreAligned needs }
    ensures placed { OnOk result (wrong_segment taken.old.items needs at ≡ None) }
    ensures taken { OnOk result (taken.new.items ≡ with_module taken.old.items needs at) }
    ensures wrong { IfErr result (Tells (wrong_segment taken.old.items needs at)) }
{
    take_segment(taken, SegmentKind::Text, needs.text, at.text)?;
    take_segment(taken, SegmentKind::Data, needs.data, at.data)?;
    take_segment(taken, SegmentKind::Bss, needs.bss, at.bss)
}
