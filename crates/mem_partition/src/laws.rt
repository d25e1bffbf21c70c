//! What follows from the definitions alone.

ghost use Rattle.mem_partition.specs.Laws.{PlaceLaw, AllocLaw, BlocksLaw};
ghost use Rattle.mem_partition.specs.Holes.{HolesLaw};

/// The place of a block is the least that fits, or on side High the greatest, and the only such
/// answer. Each multiple of the alignment in the pool that is nearer to the side overlaps a block
/// or exceeds the pool.
pub fn place_law()
    ensures { PlaceLaw }
{}

/// What an accepted `alloc` or `alloc_high` gives: a block of at least the requested size, inside
/// the pool, that overlaps none of the blocks before. If it is freed at once, the partition is as
/// before.
pub fn alloc_law()
    ensures { AllocLaw }
{}

/// No two blocks of a partition overlap, and each call keeps that.
pub fn blocks_law()
    ensures { BlocksLaw }
{}

/// No hole is empty, holes are in order of address, no two of them touch, and together with the
/// blocks they make up the pool.
pub fn holes_law()
    ensures { HolesLaw }
{}
