//! Alignments and sizes of blocks.

ghost use Rattle.std.specs.Prelude.{◌≡◌, ◌+◌, ◌*◌, ◌/◌, ◌≤◌, ◌<◌, ◌^◌};
ghost use Rattle.mem_partition.specs.Place.{aligned, rounded};
ghost use Rattle.mem_partition.specs.State.{is_align as is_align_lem};

/// The greatest alignment, in bytes.
const GREATEST_ALIGN: u32 = 65_536;

/// Every block's address and size are multiples of this many bytes.
pub const GRAIN: u32 = 16;

/// Whether `align` is a power of two from 1 to 65,536.
pub(crate) fn is_align(align: u32) -> bool
    ensures { result ≡ is_align_lem align }
{
    align.is_power_of_two() && align <= GREATEST_ALIGN
}

/// The least multiple of `align` that is at least `n`.
#[tactic(auto, unfolding(crate::specs::Place::aligned))]
pub(crate) fn align_up(n: u64, align: u64) -> u64
    requires some { 1 ≤ align }
    requires least { align < 2 ^ 32 }
    requires small { n < 2 ^ 62 }
    ensures value { result ≡ aligned n align }
    ensures small { result < n + align }
    ensures above { n ≤ result }
{
    (n + align - 1) / align * align
}

/// The greatest multiple of `align` that is at most `n`.
pub(crate) fn align_down(n: u64, align: u64) -> u64
    requires { 1 ≤ align }
    ensures value { result ≡ n / align * align }
    ensures below { result ≤ n }
{
    n / align * align
}

/// The size of a block for `n` bytes: at least 1, rounded up to a multiple of 16.
#[tactic(auto, unfolding(crate::specs::Place::rounded))]
pub fn round_up(n: u32) -> u64
    ensures value { result ≡ rounded n }
    ensures some { 0 < result }
    ensures small { result < 2 ^ 33 }
{
    align_up(u64::from(n).max(1), u64::from(GRAIN))
}
