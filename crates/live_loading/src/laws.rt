//! What follows from the definitions of a load alone.

ghost use Rattle.live_loading.specs.Laws.{LoadLaw, AloneLaw};

/// A load keeps the invariant of the world, whatever the folder answers about its file. It leaves
/// as they were the objects, the devices, the watchdogs, the other tasks, the counters other than
/// the next id, and each byte of RAM outside the blocks that it takes.
pub fn loading_law()
    ensures kept { LoadLaw }
    ensures alone { AloneLaw }
{}
