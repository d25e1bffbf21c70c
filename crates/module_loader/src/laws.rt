//! What follows from the definitions alone.

ghost use Rattle.module_loader.specs.Holding.{HoldLaw};
ghost use Rattle.module_loader.specs.Live.{LiveLaw};
ghost use Rattle.module_loader.specs.Writes.{WriteLaw};

/// For any list of accepted loads with nothing else in between, the images that they write are
/// those of one static link at the same places, and RAM holds them all at the end.
pub fn live_law()
    ensures { LiveLaw }
{}

/// An accepted load fills one Kernel block of its own for each segment that has bytes. The block
/// overlaps no earlier block, and no other byte of RAM changes.
pub fn write_law()
    ensures { WriteLaw }
{}

/// The segments of the live modules that have a block are distinct Kernel blocks of the partition,
/// the ids of modules are below the next one, and the pool is inside RAM. Loads and unloads keep
/// this. An unload frees exactly the blocks of the module.
pub fn hold_law()
    ensures { HoldLaw }
{}
