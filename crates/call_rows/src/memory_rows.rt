//! The calls on the memory partition.

ghost use Rattle.std.specs.Prelude.{◌≡◌};
ghost use Rattle.call_rows.specs.MemoryRows.{block_error as block_error_lem, malloc_row, align_row, free_row};

use kernel_world::{DONE, Reply};
use mem_partition::{Class, GRAIN, Part, PartErr};
use wind_base::Errno;

// The error number of an allocation that the partition refuses.
fn block_error(refusal: PartErr) -> Errno
    ensures { result ≡ block_error_lem refusal }
{
    match refusal {
        PartErr::BadAlign => Errno::BadAlign,
        _ => Errno::NotEnoughMemory,
    }
}

/// memalign: allocates `n` bytes at a multiple of `align`. Refused if `align` is invalid, then if
/// the partition has no room.
pub fn memalign(part: &mut Part, align: u32, n: u32) -> Reply
    ensures part { part.new ≡ (align_row part.old align n).part }
    ensures reply { result ≡ (align_row part.old align n).reply }
{
    match part.alloc(n, align, Class::User) {
        Ok(address) => Reply::Answer(address),
        Err(refusal) => Reply::Refusal(block_error(refusal)),
    }
}

/// malloc: allocates `n` bytes. Refused if the partition has no room.
pub fn malloc(part: &mut Part, n: u32) -> Reply
    ensures part { part.new ≡ (malloc_row part.old n).part }
    ensures reply { result ≡ (malloc_row part.old n).reply }
{
    memalign(part, GRAIN, n)
}

/// free: frees the block at an address; at address 0 it does nothing. Refused if no block of a
/// caller begins there.
pub fn free(part: &mut Part, address: u32) -> Reply
    ensures part { part.new ≡ (free_row part.old address).part }
    ensures reply { result ≡ (free_row part.old address).reply }
{
    if address == 0 {
        return DONE;
    }
    match part.free(address, Class::User) {
        Ok(_) => DONE,
        Err(_) => Reply::Refusal(Errno::NotABlock),
    }
}
