//! The blocks of a module's segments.

ghost use Rattle.std.specs.Prelude.{◌≡◌};
ghost use Rattle.wind_base.specs.Boards.{board_rules};
ghost use Rattle.mem_partition.specs.declared.block.Class.TheVariants.{Kernel};
ghost use Rattle.mem_partition.specs.State.{alloc_on as alloc_on_lem, after_alloc_on};
ghost use Rattle.module_loader.specs.Placing.{place_seg, with_seg, without_seg, places_of, part_after, without_needs};

use mem_partition::{Class, Part, PartErr};
use module_image::{Need, Needs, Places};
use wind_base::{BoardKind, Side};

/// The greatest size of a block, in bytes.
const GREATEST_SIZE: u64 = 0xffff_ffff;

/// Allocates a block of class Kernel on a side of the pool.
fn alloc_on(part: &mut Part, n: u32, align: u32, side: Side) -> Result<u32, PartErr>
    ensures answer { result ≡ alloc_on_lem side part.old n align }
    ensures after { part.new ≡ after_alloc_on side part.old n align Kernel }
{
    match side {
        Side::Low => part.alloc(n, align, Class::Kernel),
        Side::High => part.alloc_high(n, align, Class::Kernel),
    }
}

/// Allocates the block of a segment, on the side of the board. A segment without bytes has none,
/// and address 0.
fn take_segment(part: &mut Part, board: BoardKind, need: Need) -> Result<u32, PartErr>
    ensures answer { result ≡ place_seg (board_rules board).segments part.old need }
    ensures after { part.new ≡ with_seg (board_rules board).segments part.old need }
{
    if need.size == 0 {
        return Ok(0);
    }
    let n = u64::min(need.size, GREATEST_SIZE) as u32;
    alloc_on(part, n, need.align, board.rules().segments)
}

/// Frees the block of a segment.
fn give_segment(part: &mut Part, need: Need, at: u32)
    ensures { part.new ≡ without_seg part.old need at }
{
    if need.size != 0 {
        let _ = part.free(at, Class::Kernel);
    }
}

/// Allocates blocks for the three segments, or none at all.
#[tactic(auto, unfolding(crate::specs::Placing::places_of), using(crate::proofs::Taking::seg_back, crate::proofs::Taking::seg_refused, crate::proofs::Taking::seg_kept))]
pub(crate) fn take_blocks(
    part: &mut Part,
    board: BoardKind,
    needs: Needs,
) -> Result<Places, PartErr>
    ensures answer { result ≡ places_of (board_rules board).segments part.old needs }
    ensures after { part.new ≡ part_after (board_rules board).segments part.old needs result }
{
    // gives the partition's invariant
    let _end = part.end();
    let text = match take_segment(part, board, needs.text) {
        Ok(at) => at,
        Err(e) => return Err(e),
    };
    let data = match take_segment(part, board, needs.data) {
        Ok(at) => at,
        Err(e) => {
            give_segment(part, needs.text, text);
            return Err(e);
        }
    };
    let bss = match take_segment(part, board, needs.bss) {
        Ok(at) => at,
        Err(e) => {
            give_segment(part, needs.data, data);
            give_segment(part, needs.text, text);
            return Err(e);
        }
    };
    Ok(Places { text, data, bss })
}

/// Frees the three blocks.
pub(crate) fn give_blocks(part: &mut Part, needs: Needs, at: Places)
    ensures { part.new ≡ without_needs part.old needs at }
{
    give_segment(part, needs.bss, at.bss);
    give_segment(part, needs.data, at.data);
    give_segment(part, needs.text, at.text);
}
