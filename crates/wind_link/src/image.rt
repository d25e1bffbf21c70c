//! The bytes of the image.

ghost use Rattle.std.specs.Prelude.{◌≡◌, ◌+◌, ◌-◌, ◌^◌, ◌<◌, IfOk, length, replicate};
ghost use Rattle.wind_link.specs.Steps.{low_after, high_after, with_one, with_all, IsInside, AreInside, cut_segments};

use mem_partition::Block;
use module_image::{Needs, Places};
use std::alloc::{AllocError, Global};

/// One more than the greatest address.
const WORDS: u64 = 0x1_0000_0000;

/// The addresses of the image.
#[derive(Clone, Copy, Debug, PartialEq, Eq)]
pub(crate) struct Extent {
    /// The least address.
    pub low: u64,
    /// The end. It is at or below `low` if the image has no bytes.
    pub end: u64,
}

/// The addresses from the first of these blocks to the end of the last.
pub(crate) fn extent_of(blocks: &[Block]) -> Extent
    ensures low { result.low ≡ low_after (2 ^ 32) blocks.now }
    ensures end { result.end ≡ high_after 0 blocks.now }
{
    let mut extent = Extent { low: WORDS, end: 0 };
    for block in blocks {
        let addr = u64::from(block.addr);
        extent = Extent {
            low: u64::min(extent.low, addr),
            end: u64::max(extent.end, addr + u64::from(block.size)),
        };
    }
    extent
}

impl Extent {
    /// Zeros for all addresses.
    pub(crate) fn zeros(self, alloc: Global) -> Result<Vec<u8>, AllocError>
        ensures { IfOk result (λ v. v.items ≡ replicate (self.end - self.low) 0) }
    {
        vec![in alloc; 0; self.end.saturating_sub(self.low) as usize]
    }
}

// Writes the bytes of a segment. The image begins at address `low`.
#[tactic(auto, unfolding(crate::specs::Steps::with_one))]
fn put(image: &mut [u8], low: u64, at: u32, bytes: &[u8])
    requires { IsInside low (length image.old) (length bytes.now) at }
    ensures image { image.new ≡ with_one low image.old (at, bytes.now) }
    ensures length { length image.new ≡ length image.old }
{
    if bytes.is_empty() {
        return;
    }
    let start = (u64::from(at) - low) as usize;
    image[start..start + bytes.len()].copy_from_slice(bytes);
}

// Writes the zeros of a segment. The image begins at address `low`.
#[tactic(auto, unfolding(crate::specs::Steps::with_one))]
fn clear(image: &mut [u8], low: u64, at: u32, size: u64)
    requires { IsInside low (length image.old) size at }
    ensures image { image.new ≡ with_one low image.old (at, replicate size 0) }
    ensures length { length image.new ≡ length image.old }
{
    if size == 0 {
        return;
    }
    let start = (u64::from(at) - low) as usize;
    image[start..start + size as usize].fill(0);
}

/// Writes the segments of a module, whose text and data are these bytes. The image begins at address
/// `low`.
pub(crate) fn put_segments(image: &mut [u8], low: u64, needs: Needs, at: Places, bytes: &[u8])
    requires inside { AreInside low (length image.old) needs at }
    requires size { length bytes.now ≡ needs.text.size + needs.«data».size }
    ensures image { image.new ≡ with_all low image.old (cut_segments needs at bytes.now) }
    ensures length { length image.new ≡ length image.old }
{
    let cut = needs.text.size as usize;
    put(image, low, at.text, &bytes[..cut]);
    put(image, low, at.data, &bytes[cut..]);
    clear(image, low, at.bss, needs.bss.size);
}
