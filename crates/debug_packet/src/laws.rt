//! What follows from the definitions alone.

ghost use Rattle.debug_packet.specs.Written.{WrittenLaw};

/// The law of packets: what gdb writes, in the form of the GDB manual, reads back as what it asks.
pub fn written_law()
    ensures { WrittenLaw }
{}
